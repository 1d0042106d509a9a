// Editing one field of whole frames (01, "What is refused, and in which order"; FORMAT 3, 7 and 8).
//
// The call names the satellite by its number, answers for all input, and keeps nothing. What it cannot accept it refuses, and a refused
// call leaves the frame as it was.
#![tactic(auto)]

mod editor;

ghost use Rattle.std.specs.Prelude.{◌≡◌};
ghost use Rattle.bits.specs.Bits.{Bytes};
ghost use Rattle.satellites.specs.Satellites.{known};
ghost use Rattle.frames.specs.Answers.{written_in_numbers};
ghost use Rattle.frames.specs.Editing.{editing, frame_after};

use refusals::Refusal;
use satellites::Satellite;

// Edits one field of a frame that this satellite sent: the frame with that field alone replaced takes the old one's place, and its length
// is answered. The last promise says that each element of the frame was a byte.
pub fn edit(satellite: u32, frame: &mut [u8], field: usize, value: u32) -> Result<usize, Refusal>
    ensures value { written_in_numbers result ≡ editing (known satellite) frame.old field value }
    ensures frame_after { frame.new ≡ frame_after (known satellite) frame.old field value }
    ensures bytes { Bytes frame.old }
{
    let satellite = Satellite::from_number(satellite).ok_or(Refusal::Satellite)?;
    editor::edit(satellite, frame, field, value)
}
