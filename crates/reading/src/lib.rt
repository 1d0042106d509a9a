// Reading whole frames (01, "What is refused, and in which order"; FORMAT 3, 7 and 8).
//
// The call names the satellite by its number, answers for all input, and keeps nothing. What it cannot accept it refuses, and a refused
// call leaves the room as it was.
#![tactic(auto)]

mod reader;

ghost use Rattle.std.specs.Prelude.{◌≡◌};
ghost use Rattle.bits.specs.Bits.{Bytes};
ghost use Rattle.satellites.specs.Satellites.{known};
ghost use Rattle.frames.specs.Answers.{read_in_numbers};
ghost use Rattle.frames.specs.Reading.{reading, room_after};

use frames::Accepted;
use refusals::Refusal;
use satellites::Satellite;

// Reads a frame that this satellite sent. The values fill the room's first places; later places stay, and so does the frame. The last
// promise says that each element of the frame is a byte. Without it, writing an accepted frame's values need not give the frame again.
pub fn read(satellite: u32, frame: &[u8], room: &mut [u32]) -> Result<Accepted, Refusal>
    ensures value { read_in_numbers result ≡ reading (known satellite) frame.now room.old }
    ensures room_after { room.new ≡ room_after (known satellite) frame.now room.old }
    ensures frame_unchanged { frame.exit.now ≡ frame.entry.now }
    ensures bytes { Bytes frame.now }
{
    let satellite = Satellite::from_number(satellite).ok_or(Refusal::Satellite)?;
    reader::read(satellite, frame, room)
}
