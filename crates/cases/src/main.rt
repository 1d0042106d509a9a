// Compares what the public functions answer with cases and their answers, which a second program made (docs/CASES.md), and prints
// each case that differs. A case is a line of standard input: the call, ` | `, and what is answered and left.
//
//     read SATELLITE ROOM FRAME | REFUSAL TYPE COUNT LEFT
//     write SATELLITE TYPE OUTPUT VALUES | REFUSAL ANSWER LEFT
//     edit SATELLITE FIELD VALUE FRAME | REFUSAL ANSWER LEFT
//     temperature CODE | REFUSAL KIND DEGREES
//     summary CODES | REFUSAL PLACE COLDEST WARMEST COUNT
//     day SATELLITE FRAME | REFUSAL PLACE COLDEST WARMEST COUNT
//     checksum BYTES | SUM
//     scramble NEAR FAR START,BYTES | SENT LEFT
//     unscramble NEAR FAR START,BYTES | SENT LEFT
//     field START WIDTH BYTES | VALUE
//     replace START WIDTH VALUE BYTES | LEFT
//     satellite NUMBER | ADDRESS TRAINING SIZE TYPE_BYTE FIRST
//
// Numbers are decimal, and lists have commas. Bytes, and a frame, are pieces with commas between them: pairs of hexadecimal digits, or
// such pairs so many times over, `65537*00`. An empty list, and no bytes, is `-`. ROOM and OUTPUT are how many places and bytes are
// lent, each with a mark of its own (`marks`). LEFT is what the call left: the places up to the last one that does not hold its mark,
// `+`, and how many follow; of bytes that the call may change, `=` where they stayed. KIND is 0 for no reading, 1 for degrees, 2 for a
// sensor error; DEGREES, COLDEST and WARMEST are the bits of a 32-bit float. A day is the summary of the ten temperatures of a frame of
// type 2; for a frame of another type the answer says that it has none. SUM has two bytes; START and SENT, the bits that the scrambler
// remembers, have four, and START begins the bytes. FIRST is the number of the first temperature among the fields of type 2; a number
// that no satellite has is answered `none`.
//
// A line that begins with '#', and an empty one, is no case. One that begins with '!' is a case whose answer is wrong on purpose, and
// must not be taken for the right one. A call with nothing behind it is answered. A call that is not understood, or lends more than
// `calls::MOST` places or `calls::MOST_BYTES` bytes, has the answer `?`, which agrees with nothing. The last line says how many cases
// there were and how many differ.
#![tactic(auto)]

mod call;
mod calls;
mod degrees;
mod leaves;
mod line;
mod marks;
mod page;

use input::{Place, TooLong};
use line::Tally;
use std::io;
use std::io::{Read, Write};
use std::process::ExitCode;

// So many bytes are asked for at once: no less than a pipe holds.
const PART: usize = 65_536;

// A line has no more bytes.
const MOST_LETTERS: usize = 4096;

// No input has so many lines.
const MOST_LINES: u64 = 0xFFFF_FFFF_FFFF;

fn main(rt: HostRuntime) -> ExitCode {
    match compare(&mut rt.stdin(), &mut rt.stdout()) {
        Ok(()) => ExitCode::SUCCESS,
        Err(_) => ExitCode::FAILURE,
    }
}

// Stops where the end of what is said of a case cannot be written: whoever reads it has gone.
fn compare<R: Read, W: Write>(from: &mut R, to: &mut W) -> io::Result<()> {
    let mut part = [0; PART];
    let mut line = [0; MOST_LETTERS];
    let mut place = Place::default();
    let mut tally = Tally::default();
    for number in 1..MOST_LINES {
        let Some(found) = input::next(from, &mut part, &mut line, &mut place) else {
            tally.print(to);
            return Ok(());
        };
        let verdict = match found {
            Ok(letters) => line::judged(&line[..letters], number, to)?,
            Err(TooLong) => line::too_long(number, to)?,
        };
        tally.count(verdict);
    }
    Ok(())
}
