// A line judged: whether it is a case, and whether its answer is the right one.
ghost use Rattle.std.specs.Prelude.{◌≡◌, true, IsSomeAnd};

use crate::page::Page;
use crate::{call, calls};
use std::io;
use std::io::Write;

// How many cases there were so far, and how many of them differ.
#[derive(Clone, Copy, Debug, Default, PartialEq, Eq)]
pub(crate) struct Tally {
    cases: u64,
    differ: u64,
}

#[derive(Clone, Copy, Debug, PartialEq, Eq)]
pub(crate) enum Verdict {
    NoCase,
    Same,
    Differs,
}

impl Tally {
    // There are never so many.
    pub(crate) fn count(&mut self, verdict: Verdict) {
        if verdict != Verdict::NoCase {
            self.cases = self.cases.saturating_add(1);
        }
        if verdict == Verdict::Differs {
            self.differ = self.differ.saturating_add(1);
        }
    }

    // The last line may be missing. Text by text, as in `begin`.
    pub(crate) fn print<W: Write>(&self, to: &mut W) {
        let _ = write!(to, "{}", self.cases);
        let _ = to.write_all(b" cases, ");
        let _ = write!(to, "{}", self.differ);
        let _ = to.write_all(b" differ\n");
    }
}

pub(crate) fn too_long<W: Write>(line: u64, to: &mut W) -> io::Result<Verdict> {
    differs(line, b"too long\n", to)
}

// Here and below each part of what is said is tried, whatever became of those ahead: that the last could be written is the answer.
fn differs<W: Write>(line: u64, what: &[u8], to: &mut W) -> io::Result<Verdict> {
    begin(line, to);
    to.write_all(what)?;
    Ok(Verdict::Differs)
}

// Text by text: a format stops at the first that cannot be written.
fn begin<W: Write>(line: u64, to: &mut W) {
    let _ = to.write_all(b"line ");
    let _ = write!(to, "{line}");
    let _ = to.write_all(b": ");
}

pub(crate) fn judged<W: Write>(text: &[u8], line: u64, to: &mut W) -> io::Result<Verdict> {
    match text {
        [] | [b'#', ..] => Ok(Verdict::NoCase),
        [b'!', case @ ..] => controlled(case, line, to),
        _ => compared(text, line, to),
    }
}

// A case whose answer is wrong on purpose must not agree.
fn controlled<W: Write>(text: &[u8], line: u64, to: &mut W) -> io::Result<Verdict> {
    let mut page = Page::new();
    let (call, expected) = match parted(text) {
        Some((call, expected)) => (call, Some(expected)),
        None => (text, None),
    };
    let answered = calls::answer(call, &mut page);
    if answered.is_none() {
        return differs(line, b"a call that is not understood\n", to);
    }
    if expected.is_some_and(|expected| agree(expected, answered)) {
        return differs(line, b"a wrong answer is taken for the right one\n", to);
    }
    Ok(Verdict::Same)
}

// A call that has no answer behind it is answered.
fn compared<W: Write>(text: &[u8], line: u64, to: &mut W) -> io::Result<Verdict> {
    let mut page = Page::new();
    if !text.contains(&b'|') {
        let _ = to.write_all(text);
        let _ = to.write_all(b" | ");
        let _ = to.write_all(shown(calls::answer(text, &mut page)));
        to.write_all(b"\n")?;
        return Ok(Verdict::NoCase);
    }
    let Some((call, expected)) = parted(text) else {
        begin(line, to);
        let _ = to.write_all(text);
        to.write_all(b"\n    is no case\n")?;
        return Ok(Verdict::Differs);
    };
    let answered = calls::answer(call, &mut page);
    if agree(expected, answered) {
        return Ok(Verdict::Same);
    }
    begin(line, to);
    let _ = to.write_all(call);
    let _ = to.write_all(b"\n    expected ");
    let _ = to.write_all(expected);
    let _ = to.write_all(b"\n    answered ");
    let _ = to.write_all(shown(answered));
    to.write_all(b"\n")?;
    Ok(Verdict::Differs)
}

// A call, and the answer behind ` | `.
fn parted(text: &[u8]) -> Option<(&[u8], &[u8])> {
    let (call, answer) = call::split_once(text, b'|')?;
    Some((call.strip_suffix(b" ")?, answer.strip_prefix(b" ")?))
}

// Whether the answer behind a call is the one that the call gets. What was not understood agrees with nothing.
fn agree(expected: &[u8], answered: Option<&[u8]>) -> bool
    ensures { result ≡ true → IsSomeAnd answered.entry (λ text. text.now ≡ expected.now) }
{
    answered == Some(expected)
}

fn shown(answered: Option<&[u8]>) -> &[u8] {
    answered.unwrap_or(b"?".as_slice())
}
