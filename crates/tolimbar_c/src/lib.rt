// What C calls (01, "What is refused, and in which order" and "Temperatures"; FORMAT 7 to 9), as include/tolimbar.h declares it: the
// functions of the crate tolimbar under the same names, each with the contract of the one that it calls. proofs/Contracts.antt says so of
// each, so that what is proved of those functions holds of these.
//
// A crate is a library for other crates or one for C, and not both. So these stand apart, and tools/library builds the archive from them.
#![tactic(auto)]

ghost use Rattle.std.specs.Prelude.{◌≡◌};
ghost use Rattle.bits.specs.Bits.{Bytes};
ghost use Rattle.satellites.specs.Satellites.{known};
ghost use Rattle.frames.specs.Reading.{reading, room_after};
ghost use Rattle.frames.specs.Writing.{writing, output_after};
ghost use Rattle.frames.specs.Editing.{editing, frame_after};
ghost use Rattle.temperatures.specs.Readings.{answering, values_in};
ghost use Rattle.temperatures.specs.Summaries.{day_of};
ghost use Rattle.tolimbar.specs.Answers.{reading_in_c, writing_in_c, told_in_c, placed, day_in_c, coldest_warmest, count_in};

use tolimbar::{Day, Reading, Told, Writing};

// Reads a frame that this satellite sent. The values fill the room's first places; later places stay. The last promise says that
// each element of the frame is a byte.
#[unsafe(no_mangle)]
pub extern "C" fn tolimbar_read(satellite: u32, frame: &[u8], room: &mut [u32]) -> Reading
    ensures value { result ≡ reading_in_c (reading (known satellite) frame.now room.old) }
    ensures room_after { room.new ≡ room_after (known satellite) frame.now room.old }
    ensures frame_unchanged { frame.exit.now ≡ frame.entry.now }
    ensures bytes { Bytes frame.now }
{
    tolimbar::tolimbar_read(satellite, frame, room)
}

// Writes the frame of this satellite's type that carries these values. It fills the output's first bytes; later bytes stay.
#[unsafe(no_mangle)]
pub extern "C" fn tolimbar_write(
    satellite: u32,
    ty: u32,
    values: &[u32],
    output: &mut [u8],
) -> Writing
    ensures value { result ≡ writing_in_c (writing (known satellite) ty values.now output.old) }
    ensures output_after { output.new ≡ output_after (known satellite) ty values.now output.old }
    ensures values_unchanged { values.exit.now ≡ values.entry.now }
{
    tolimbar::tolimbar_write(satellite, ty, values, output)
}

// Edits one field of a frame that this satellite sent: the frame with that field alone replaced takes the old one's place. The last
// promise says that each element of the frame was a byte.
#[unsafe(no_mangle)]
pub extern "C" fn tolimbar_edit(satellite: u32, frame: &mut [u8], field: u32, value: u32) -> Writing
    ensures value { result ≡ writing_in_c (editing (known satellite) frame.old field value) }
    ensures frame_after { frame.new ≡ frame_after (known satellite) frame.old field value }
    ensures bytes { Bytes frame.old }
{
    tolimbar::tolimbar_edit(satellite, frame, field, value)
}

// Reads one code. Where the reading is in degrees, they are put in their place; otherwise it stays.
#[unsafe(no_mangle)]
pub extern "C" fn tolimbar_temperature(code: u32, degrees: &mut [f32; 1]) -> Told
    ensures value { result ≡ told_in_c (answering code) }
    ensures degrees_after { degrees.new ≡ placed (values_in (answering code)).degrees degrees.old }
{
    tolimbar::tolimbar_temperature(code, degrees)
}

// Sums up the day's ten codes: the coldest and the warmest degrees, and how many sensors answered. On a refusal these are 0.0, 0.0
// and 0.
#[unsafe(no_mangle)]
pub extern "C" fn tolimbar_summary(
    codes: &[u32],
    degrees: &mut [f32; 2],
    counts: &mut [u32; 1],
) -> Day
    ensures value { result ≡ day_in_c (day_of codes.now) }
    ensures degrees_after { degrees.new ≡ coldest_warmest (day_of codes.now).summary }
    ensures counts_after { counts.new ≡ count_in (day_of codes.now).summary }
    ensures codes_unchanged { codes.exit.now ≡ codes.entry.now }
{
    tolimbar::tolimbar_summary(codes, degrees, counts)
}
