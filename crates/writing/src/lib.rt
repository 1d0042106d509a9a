// Writing whole frames (01, "What is refused, and in which order"; FORMAT 3, 7 and 8).
//
// The call names the satellite by its number, answers for all input, and keeps nothing. What it cannot accept it refuses with the
// paper's number, and a refused call leaves the output as it was.
#![tactic(auto)]

mod writer;

ghost use Rattle.std.specs.Prelude.{◌≡◌};
ghost use Rattle.satellites.specs.Satellites.{known};
ghost use Rattle.frames.specs.Answers.{written_in_numbers};
ghost use Rattle.frames.specs.Writing.{writing, output_after};

use refusals::Refusal;
use satellites::Satellite;

// Writes the frame of this satellite's type that carries these values, and answers its length. It fills the output's first bytes; later
// bytes stay, and so do the values.
pub fn write(satellite: u32, ty: u32, values: &[u32], output: &mut [u8]) -> Result<usize, Refusal>
    ensures value { written_in_numbers result ≡ writing (known satellite) ty values.now output.old }
    ensures output_after { output.new ≡ output_after (known satellite) ty values.now output.old }
    ensures values_unchanged { values.exit.now ≡ values.entry.now }
{
    let satellite = Satellite::from_number(satellite).ok_or(Refusal::Satellite)?;
    writer::write(satellite, ty, values, output)
}
