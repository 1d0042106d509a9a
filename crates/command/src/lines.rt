// Lines of standard input: each is answered when its end is read.
use crate::following::Rows;
use crate::{commands, given};
use input::{Place, TooLong};
use std::io::Read;

// The end of an answer or of a row could not be written: whoever reads the answers has gone. No more follow.
#[derive(Clone, Copy)]
pub(crate) struct Unwritten;

// No input has so many lines.
const MOST_LINES: u64 = 0xFFFF_FFFF_FFFF;

// Standard output.
const STDOUT_FILENO: i32 = 1;

// What reads the lines: the reader, what came of it, the line that was read, and where the next begins.
#[derive(Drop)]
pub(crate) struct Lines<'l, R> {
    from: &'l mut R,
    part: &'l mut [u8],
    line: &'l mut [u8],
    place: Place,
}

impl<'l, R: Read> Lines<'l, R> {
    pub(crate) fn new(from: &'l mut R, part: &'l mut [u8], line: &'l mut [u8]) -> Self {
        Lines {
            from,
            part,
            line,
            place: Place::default(),
        }
    }

    // The next line; none where no line is left. In place in both loops: a call for each line is felt where lines are short.
    #[inline(always)]
    fn next(&mut self) -> Option<Result<&[u8], TooLong>> {
        match input::next(self.from, self.part, self.line, &mut self.place)? {
            Ok(letters) => Some(Ok(&self.line[..letters])),
            Err(TooLong) => Some(Err(TooLong)),
        }
    }

    // Each line is a command, but for those that a command takes as frames.
    pub(crate) fn answer(&mut self) -> Result<(), Unwritten> {
        for _ in 0..MOST_LINES {
            let rows = match self.next() {
                Some(Ok(line)) if is_no_command(line) => continue,
                Some(Ok(line)) => commands::answer(line),
                Some(Err(TooLong)) => {
                    given::line_too_long(self.line);
                    None
                }
                None => break,
            };
            if let Some(rows) = rows {
                self.follow(rows)?;
            }
            end(b"\n")?;
        }
        Ok(())
    }

    // Each line is a frame, and becomes a row. An empty line ends them; the last frame may have none behind it.
    pub(crate) fn follow(&mut self, rows: Rows) -> Result<(), Unwritten> {
        for _ in 0..MOST_LINES {
            match self.next() {
                Some(Ok(line)) if 0 < words::count(line) => rows.frame(line)?,
                Some(Err(TooLong)) => rows.too_long()?,
                Some(Ok(_)) | None => break,
            }
        }
        Ok(())
    }
}

// A line with no words, and one that begins with `#`.
fn is_no_command(line: &[u8]) -> bool {
    matches!(words::word(line, 0), [] | [b'#', ..])
}

// Writes the last text of an answer or of a row.
pub(crate) fn end(text: &[u8]) -> Result<(), Unwritten> {
    if io::write_all(STDOUT_FILENO, text) {
        Ok(())
    } else {
        Err(Unwritten)
    }
}
