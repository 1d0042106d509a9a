// The commands on a frame: it is read first, whatever is asked, so that each of them names the same refusal.
use crate::carried::Carried;
use crate::wrong::Wrong;
use crate::{fields, given};
use printing::sent_parts::MOST_BYTES;
use printing::tests::ROOM;
use refusals::Refusal;
use satellites::Satellite;

// A frame that reading accepts: its type, and the values of its fields.
#[derive(Clone, Copy)]
pub(crate) struct Opened<'b> {
    pub(crate) carried: Carried,
    pub(crate) values: &'b [u32],
}

// A frame that is given in words, and what reading says of it.
#[derive(Clone, Copy)]
pub(crate) struct Frame<'b> {
    pub(crate) satellite: u32,
    pub(crate) bytes: &'b [u8],
    pub(crate) reading: Result<Opened<'b>, Refusal>,
}

// read SATELLITE FRAME
pub(crate) fn read(line: &[u8]) -> Result<(), Wrong<'_>> {
    given::has_at_least(line, 3)?;
    let mut bytes = [0u8; MOST_BYTES];
    let mut values = [0u32; ROOM];
    let frame = of(line, 0, &mut bytes, &mut values)?;
    match frame.reading {
        Ok(opened) => fields::told(&opened),
        Err(refusal) => frame.refused(refusal),
    }
    Ok(())
}

// Satellite and frame are the words behind the command's own, up to so many of the last.
pub(crate) fn of<'l, 'b>(
    line: &'l [u8],
    behind: usize,
    bytes: &'b mut [u8],
    room: &'b mut [u32],
) -> Result<Frame<'b>, Wrong<'l>> {
    let satellite = given::satellite(words::word(line, 1))?;
    let end = words::count(line).saturating_sub(behind);
    let bytes = given::frame(line, 2, end, bytes).map_err(Wrong::NoFrame)?;
    Ok(Frame {
        satellite,
        bytes,
        reading: reading(satellite, bytes, room),
    })
}

// The values go to the start of `room`. Reading accepts no type that its satellite does not carry, and no room that is too small.
pub(crate) fn reading<'b>(
    satellite: u32,
    bytes: &[u8],
    room: &'b mut [u32],
) -> Result<Opened<'b>, Refusal> {
    let accepted = reading::read(satellite, bytes, room)?;
    let satellite = Satellite::from_number(satellite).ok_or(Refusal::Satellite)?;
    let carried = Carried::of(satellite, accepted.ty).ok_or(Refusal::NotCarried)?;
    let values = room.get(..accepted.count).ok_or(Refusal::Room)?;
    Ok(Opened { carried, values })
}

impl Frame<'_> {
    pub(crate) fn refused(&self, refusal: Refusal) {
        printing::text(b"refused ");
        printing::reasons::of_frame(refusal.number(), self.satellite, self.bytes);
        printing::text(b"\n");
    }
}
