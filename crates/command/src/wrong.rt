// Why a command is not answered. One line says so.
use printing::reasons;
use satellites::Satellite;
use words::PairsError;

#[derive(Clone, Copy)]
pub(crate) enum Wrong<'l> {
    Word {
        what: &'static [u8],
        word: &'l [u8],
        hint: &'static [u8],
    },
    // Behind the command's own word.
    Missing(&'l [u8]),
    NoFrame(NoBytes<'l>),
    // From here on, refusals: the number that names no satellite; satellite and type, and what was found.
    NoSatellite(u32),
    NotCarried(Satellite, u32),
    Count(Satellite, u32, usize),
    Value(Satellite, u32, usize, u32),
    NoField(Satellite, u32, usize),
}

// A word that is no part of a frame.
#[derive(Clone, Copy)]
pub(crate) struct NoBytes<'l> {
    pub(crate) word: &'l [u8],
    pub(crate) why: PairsError,
}

impl Wrong<'_> {
    pub(crate) fn print(self) {
        printing::text(self.head());
        match self {
            Wrong::Word { what, word, hint } => {
                printing::text(what);
                printing::text(b": ");
                printing::word(word);
                printing::text(hint);
            }
            Wrong::Missing(word) => {
                printing::word(word);
                printing::text(b" (help ");
                printing::word(word);
                return printing::text(b" tells which)\n");
            }
            Wrong::NoFrame(word) => word.print(),
            Wrong::NoSatellite(number) => reasons::of_number(number),
            Wrong::NotCarried(one, ty) => reasons::of_type_asked(one, ty),
            Wrong::Count(one, ty, found) => reasons::of_count(one, ty, found),
            Wrong::Value(one, ty, field, value) => reasons::of_value(one, ty, field, value),
            Wrong::NoField(one, ty, field) => reasons::of_field(one, ty, field),
        }
        printing::text(b"\n");
    }

    // What the line begins with.
    fn head(self) -> &'static [u8] {
        match self {
            Wrong::Word { .. } | Wrong::NoFrame(_) => b"error: ",
            Wrong::Missing(_) => b"error: words are missing: ",
            _ => b"refused ",
        }
    }
}

impl NoBytes<'_> {
    // No line is long enough for too many bytes.
    pub(crate) fn print(self) {
        match self.why {
            PairsError::NotDigits => printing::text(b"not hexadecimal: "),
            PairsError::Odd => printing::text(b"an odd number of hexadecimal digits: "),
            PairsError::TooMany => printing::text(b"too many bytes: "),
        }
        printing::word(self.word);
    }
}
