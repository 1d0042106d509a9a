// What an answer is written on, and how its parts are.
ghost use Rattle.std.specs.Prelude.{◌≤◌, length};

use std::fmt;

// An answer has no more letters.
const MOST: usize = 4096;

// Of what does not fit, the front is put.
// No `String`: it would bring in an error of memory, for which no call has an answer, and would still be cut at this length.
#[derive(Drop)]
pub(crate) struct Page {
    text: [u8; MOST],
    end: usize,
    ghost within: { end ≤ length text },
}

impl Page {
    pub(crate) fn new() -> Page {
        Page {
            text: [0; MOST],
            end: 0,
        }
    }

    pub(crate) fn written(&self) -> &[u8] {
        &self.text[..self.end]
    }
}

impl fmt::Write for Page {
    fn write_str(&mut self, text: &str) -> fmt::Result {
        self.end = pages::text(&mut self.text, self.end, text.as_bytes());
        Ok(())
    }
}

// Bytes, as pairs of digits: as many as a page has place for.
#[derive(Clone, Copy)]
pub(crate) struct Pairs<'a>(pub &'a [u8]);

impl fmt::Display for Pairs<'_> {
    fn fmt<W: fmt::Write>(&self, f: &mut fmt::Formatter<W>) -> fmt::Result {
        // Eight bytes at once: to format one takes nearly as long.
        let (eights, rest) = self.0[..self.0.len().min(MOST / 2)].as_chunks::<8>();
        for eight in eights {
            write!(f, "{:016X}", u64::from_be_bytes(*eight))?;
        }
        for byte in rest {
            write!(f, "{byte:02X}")?;
        }
        Ok(())
    }
}

// What a call left of bytes that it may change: `=` where they stayed.
#[derive(Clone, Copy)]
pub(crate) struct Changed<'a> {
    pub bytes: &'a [u8],
    pub before: &'a [u8],
}

impl fmt::Display for Changed<'_> {
    fn fmt<W: fmt::Write>(&self, f: &mut fmt::Formatter<W>) -> fmt::Result {
        if self.bytes == self.before {
            return write!(f, "=");
        }
        write!(f, "{}", Pairs(self.bytes))
    }
}

// The bits of a float. For all that is not a number one pattern is put, which no right answer has.
#[derive(Clone, Copy)]
pub(crate) struct Pattern(pub f32);

impl fmt::Display for Pattern {
    fn fmt<W: fmt::Write>(&self, f: &mut fmt::Formatter<W>) -> fmt::Result {
        let bits = if self.0.is_nan() {
            0x7FC0_0000
        } else {
            self.0.to_bits()
        };
        write!(f, "{bits:08X}")
    }
}
