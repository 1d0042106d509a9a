// The C interface: reading, writing and editing of frames, temperatures and the day's summary, for programs in other languages
// (01, "What is refused, and in which order" and "Temperatures"; FORMAT 7 to 9). The crate tolimbar_c hands these functions on to C under
// the same names, with the same contracts, and include/tolimbar.h declares them.
//
// A slice is a pointer and a length there. Numbers have 32 bits. What is answered are integers, in a struct of at most 16 bytes;
// floats and further counts go into arrays that the caller lends. C compares and prints the structs; nothing here does.
#![tactic(auto)]

ghost use Rattle.std.specs.Prelude.{◌≡◌, ◌^◌, ◌<◌};
ghost use Rattle.bits.specs.Bits.{Bytes};
ghost use Rattle.satellites.specs.Satellites.{known};
ghost use Rattle.frames.specs.Answers.{written_in_numbers};
ghost use Rattle.frames.specs.Reading.{reading, room_after};
ghost use Rattle.frames.specs.Writing.{writing, output_after};
ghost use Rattle.frames.specs.Editing.{editing, frame_after};
ghost use Rattle.temperatures.specs.Readings.{answering, values_in, degrees_in};
ghost use Rattle.temperatures.specs.Summaries.{day_of};
ghost use Rattle.tolimbar.specs.Answers.{reading_in_c, writing_in_c, told_in_c, read_in_c, placed, day_in_c, coldest_warmest, count_in};

use refusals::{ACCEPTED, Refusal};

// The kinds of readings, numbers for C: they are added to, and never renumbered. Refused codes have none.
const NONE: u32 = 0;

const DEGREES: u32 = 1;

const SENSOR_ERROR: u32 = 2;

// What `tolimbar_read` answers: the refusal's number, and of an accepted frame its type and how many fields it has.
#[repr(C)]
#[derive(Clone, Copy)]
pub struct Reading {
    pub refusal: u32,
    pub ty: u32,
    pub count: u32,
}

// What `tolimbar_write` and `tolimbar_edit` answer: the refusal's number, and of an accepted call the frame's length; on refusal
// 11, the field that its value does not fit, in writing the lowest.
#[repr(C)]
#[derive(Clone, Copy)]
pub struct Writing {
    pub refusal: u32,
    pub answer: u32,
}

// What `tolimbar_temperature` answers: the refusal's number, and the kind of reading.
#[repr(C)]
#[derive(Clone, Copy)]
pub struct Told {
    pub refusal: u32,
    pub kind: u32,
}

// What `tolimbar_summary` answers: the refusal's number; with 11, the lowest place of a code above 255.
#[repr(C)]
#[derive(Clone, Copy)]
pub struct Day {
    pub refusal: u32,
    pub place: u32,
}

// Reads a frame that this satellite sent. The values fill the room's first places; later places stay. The last promise says that
// each element of the frame is a byte.
pub fn tolimbar_read(satellite: u32, frame: &[u8], room: &mut [u32]) -> Reading
    ensures value { result ≡ reading_in_c (reading (known satellite) frame.now room.old) }
    ensures room_after { room.new ≡ room_after (known satellite) frame.now room.old }
    ensures frame_unchanged { frame.exit.now ≡ frame.entry.now }
    ensures bytes { Bytes frame.now }
{
    match reading::read(satellite, frame, room) {
        Ok(accepted) => Reading {
            refusal: ACCEPTED,
            ty: accepted.ty,
            count: accepted.count as u32,
        },
        Err(refusal) => Reading {
            refusal: refusal.number(),
            ty: 0,
            count: 0,
        },
    }
}

// Writes the frame of this satellite's type that carries these values. It fills the output's first bytes; later bytes stay.
pub fn tolimbar_write(satellite: u32, ty: u32, values: &[u32], output: &mut [u8]) -> Writing
    ensures value { result ≡ writing_in_c (writing (known satellite) ty values.now output.old) }
    ensures output_after { output.new ≡ output_after (known satellite) ty values.now output.old }
    ensures values_unchanged { values.exit.now ≡ values.entry.now }
{
    written(writing::write(satellite, ty, values, output))
}

// Edits one field of a frame that this satellite sent: the frame with that field alone replaced takes the old one's place. The last
// promise says that each element of the frame was a byte.
pub fn tolimbar_edit(satellite: u32, frame: &mut [u8], field: u32, value: u32) -> Writing
    ensures value { result ≡ writing_in_c (editing (known satellite) frame.old field value) }
    ensures frame_after { frame.new ≡ frame_after (known satellite) frame.old field value }
    ensures bytes { Bytes frame.old }
{
    written(editing::edit(satellite, frame, field as usize, value))
}

// What writing and editing answer, as C is answered.
fn written(told: Result<usize, Refusal>) -> Writing
    requires { (written_in_numbers told).answer < 2 ^ 32 }
    ensures { result ≡ writing_in_c (written_in_numbers told) }
{
    match told {
        Ok(length) => Writing {
            refusal: ACCEPTED,
            answer: length as u32,
        },
        Err(refusal) => Writing {
            refusal: refusal.number(),
            answer: refusal.place() as u32,
        },
    }
}

// Reads one code. Where the reading is in degrees, they are put in their place; otherwise it stays.
pub fn tolimbar_temperature(code: u32, degrees: &mut [f32; 1]) -> Told
    ensures value { result ≡ told_in_c (answering code) }
    ensures degrees_after { degrees.new ≡ placed (values_in (answering code)).degrees degrees.old }
{
    match temperatures::reading_of(code) {
        Ok(reading) => tell(reading, degrees),
        Err(refusal) => Told {
            refusal: refusal.number(),
            kind: NONE,
        },
    }
}

// Tells the kind of a reading, and puts the degrees, where it has any, in their place.
fn tell(reading: temperatures::Reading, degrees: &mut [f32; 1]) -> Told
    ensures value { result ≡ read_in_c reading }
    ensures degrees_after { degrees.new ≡ placed (degrees_in reading) degrees.old }
{
    match reading {
        temperatures::Reading::Degrees(x) => {
            *degrees = [x];
            Told {
                refusal: ACCEPTED,
                kind: DEGREES,
            }
        }
        temperatures::Reading::SensorError => Told {
            refusal: ACCEPTED,
            kind: SENSOR_ERROR,
        },
    }
}

// Sums up the day's ten codes: the coldest and the warmest degrees, and how many sensors answered. On a refusal these are 0.0, 0.0
// and 0.
pub fn tolimbar_summary(codes: &[u32], degrees: &mut [f32; 2], counts: &mut [u32; 1]) -> Day
    ensures value { result ≡ day_in_c (day_of codes.now) }
    ensures degrees_after { degrees.new ≡ coldest_warmest (day_of codes.now).summary }
    ensures counts_after { counts.new ≡ count_in (day_of codes.now).summary }
    ensures codes_unchanged { codes.exit.now ≡ codes.entry.now }
{
    match temperatures::summary_of(codes) {
        Ok(summary) => {
            *degrees = [summary.coldest, summary.warmest];
            *counts = [summary.count];
            Day {
                refusal: ACCEPTED,
                place: 0,
            }
        }
        Err(refusal) => {
            *degrees = [0.0, 0.0];
            *counts = [0];
            Day {
                refusal: refusal.number(),
                place: refusal.place() as u32,
            }
        }
    }
}
