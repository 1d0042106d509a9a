// The front of a frame, up to its type byte: what comes before that byte, compared and written, and tests 2 to 6. A whole frame is also
// tested for its length, test 7. Satellite and frame are two parameters, as `reading` and `editing` are given them.
#![tactic(auto)]

mod preamble;

ghost use Rattle.std.specs.Prelude.{◌≡◌};
ghost use Rattle.frames.specs.Frames.{type_of};
ghost use Rattle.frames.specs.Reading.{front_tests, whole_tests};
ghost use Rattle.fronts.specs.Fronts.{front_of, refused_in, tested_by};

use layouts::Layout;
use refusals::Refusal;
use satellites::Satellite;

// Training and sync, and the function that writes all that comes before the type byte.
pub use preamble::{SYNC, TRAINING, write};

// The type of a front that is accepted, and the fields of that type.
#[derive(Clone, Copy, Debug, PartialEq, Eq)]
pub struct Front {
    pub ty: u32,
    pub layout: Layout,
}

// A front that is refused: why, and what is told of its type; where the front ends before the type byte, of type 0.
#[derive(Clone, Copy, Debug, PartialEq, Eq)]
pub struct Refused {
    pub refusal: Refusal,
    pub ty: u32,
    pub layout: Option<Layout>,
}

// Tests 2 to 6, whatever comes behind the type byte.
pub fn of(satellite: Satellite, frame: &[u8]) -> Result<Front, Refused>
    ensures value { result ≡ front_of (front_tests satellite frame.now) satellite frame.now }
    ensures frame_unchanged { frame.exit.now ≡ frame.entry.now }
{
    tested(satellite, frame).map_err(|refusal| refusal_told(refusal, satellite, frame))
}

// Tests 2 to 7, on a whole frame. One line, as `of`: each goes over a function of its own.
pub fn whole(satellite: Satellite, frame: &[u8]) -> Result<Front, Refused>
    ensures value { result ≡ front_of (whole_tests satellite frame.now) satellite frame.now }
    ensures frame_unchanged { frame.exit.now ≡ frame.entry.now }
{
    tested_whole(satellite, frame).map_err(|refusal| refusal_told(refusal, satellite, frame))
}

// A refusal, and what is told of the type of the front that it refuses.
fn refusal_told(refusal: Refusal, satellite: Satellite, frame: &[u8]) -> Refused
    ensures { result ≡ refused_in satellite frame.now refusal }
{
    let sent = type_sent(satellite, frame);
    Refused {
        refusal,
        ty: sent,
        layout: layouts::of(satellite, sent),
    }
}

// The first of tests 2 to 6 that fails.
fn tested(satellite: Satellite, frame: &[u8]) -> Result<Front, Refusal>
    ensures value { result ≡ tested_by (front_tests satellite frame.now) satellite frame.now }
    ensures frame_unchanged { frame.exit.now ≡ frame.entry.now }
{
    let at = satellite.type_byte_at();
    if frame.len() <= at {
        return Err(Refusal::Short);
    }
    if !preamble::is_right(satellite, frame) {
        return Err(Refusal::Preamble);
    }
    if frame[at] % 16 != satellite.address() {
        return Err(Refusal::Address);
    }
    let ty = type_sent(satellite, frame);
    let layout = layouts::of(satellite, ty).ok_or(Refusal::NotCarried)?;
    if satellite.has_size_byte() && frame[at - 1] as usize != layout.size {
        return Err(Refusal::Size);
    }
    Ok(Front { ty, layout })
}

// The first of tests 2 to 7 that fails.
fn tested_whole(satellite: Satellite, frame: &[u8]) -> Result<Front, Refusal>
    ensures value { result ≡ tested_by (whole_tests satellite frame.now) satellite frame.now }
    ensures frame_unchanged { frame.exit.now ≡ frame.entry.now }
{
    let front = tested(satellite, frame)?;
    if frame.len() != front.layout.frame {
        return Err(Refusal::Length);
    }
    Ok(front)
}

// The type in the type byte; 0 where the frame ends ahead of it.
pub fn type_sent(satellite: Satellite, frame: &[u8]) -> u32
    ensures value { result ≡ type_of satellite frame.now }
    ensures frame_unchanged { frame.exit.now ≡ frame.entry.now }
{
    match frame.get(satellite.type_byte_at()) {
        Some(typed) => (typed / 16) as u32,
        None => 0,
    }
}
