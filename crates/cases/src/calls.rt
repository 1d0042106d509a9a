// The calls: what is lent, the call itself, and the answer's text. A call that is not understood has no answer.
use crate::marks::Left;
use crate::page::{Changed, Page};
use crate::{call, degrees, leaves, marks};
use frames::Accepted;
use refusals::{ACCEPTED, Refusal};
use std::fmt::Write;

// No more places, values or codes are lent.
pub(crate) const MOST: usize = 256;

// Nor more bytes.
pub(crate) const MOST_BYTES: usize = 65_537;

// The answer, which is written on the page.
pub(crate) fn answer<'a>(call: &[u8], page: &'a mut Page) -> Option<&'a [u8]> {
    ask(call, page)?;
    Some(page.written())
}

// A call is its name, up to three numbers, and bytes or a list. A name goes with its number of words behind it.
fn ask(call: &[u8], page: &mut Page) -> Option<()> {
    let last = words::count(call).checked_sub(1)?;
    let given = call::numbers(call, last)?;
    let text = words::word(call, last);
    match (words::word(call, 0), last) {
        (b"read", 3) => read(page, given, text),
        (b"write", 4) => write(page, given, text),
        (b"edit", 4) => edit(page, given, text),
        (b"temperature", 1) => degrees::temperature(page, text),
        (b"summary", 1) => degrees::summary(page, text),
        (b"day", 2) => degrees::day(page, given, text),
        (b"checksum", 1) => leaves::sum(page, text),
        (b"scramble", 3) => leaves::passed(page, given, text, scrambler::scramble),
        (b"unscramble", 3) => leaves::passed(page, given, text, scrambler::unscramble),
        (b"field", 3) => leaves::field(page, given, text),
        (b"replace", 4) => leaves::replace(page, given, text),
        (b"satellite", 1) => leaves::satellite(page, text),
        _ => None,
    }
}

// Satellite, and how many places are lent.
fn read(page: &mut Page, [satellite, lent, _]: [u32; 3], text: &[u8]) -> Option<()> {
    let mut bytes = [0; MOST_BYTES];
    let frame = call::bytes(text, &mut bytes)?;
    let mut room = [0; MOST];
    let room = room.get_mut(..lent as usize)?;
    marks::put(room);
    let (refusal, ty, count) = match reading::read(satellite, frame, room) {
        Ok(Accepted { ty, count }) => (ACCEPTED, ty, count),
        Err(refusal) => (refusal.number(), 0, 0),
    };
    let left = Left(room);
    write!(page, "{refusal} {ty} {count} {left}").ok()
}

// Satellite, type, and how many bytes are lent.
fn write(page: &mut Page, [satellite, ty, lent]: [u32; 3], text: &[u8]) -> Option<()> {
    let mut values = [0; MOST];
    let values = call::list(text, &mut values)?;
    let mut output = [0; MOST_BYTES];
    let output = output.get_mut(..lent as usize)?;
    marks::put(output);
    let (refusal, answer) = told(writing::write(satellite, ty, values, output));
    let left = Left(output);
    write!(page, "{refusal} {answer} {left}").ok()
}

// Satellite, field and value.
fn edit(page: &mut Page, [satellite, field, value]: [u32; 3], text: &[u8]) -> Option<()> {
    let mut bytes = [0; MOST_BYTES];
    let frame = call::bytes(text, &mut bytes)?;
    let mut before = [0; MOST_BYTES];
    let before = copied(frame, &mut before)?;
    let (refusal, answer) = told(editing::edit(satellite, frame, field as usize, value));
    let left = Changed {
        bytes: frame,
        before,
    };
    write!(page, "{refusal} {answer} {left}").ok()
}

// The refusal's number, 0 for none, and the answer: the frame's length, or the field whose value does not fit, or 0.
fn told(answer: Result<usize, Refusal>) -> (u32, usize) {
    match answer {
        Ok(length) => (ACCEPTED, length),
        Err(refusal) => (refusal.number(), refusal.place()),
    }
}

// Bytes that may change are compared with a copy.
pub(crate) fn copied<'a>(bytes: &[u8], copy: &'a mut [u8]) -> Option<&'a [u8]> {
    let copy = copy.get_mut(..bytes.len())?;
    copy.copy_from_slice(bytes);
    Some(copy)
}
