// Frames written, and edited.
use crate::carried::Carried;
use crate::wrong::Wrong;
use crate::{fields, frame, given, picture};
use printing::sent_parts::MOST_BYTES;
use printing::tests::ROOM;
use refusals::Refusal;
use satellites::Satellite;

// A line has fewer values.
const MOST_VALUES: usize = 2048;

// write SATELLITE TYPE VALUES..
pub(crate) fn write(line: &[u8]) -> Result<(), Wrong<'_>> {
    given::has_at_least(line, 3)?;
    let (number, ty) = given::satellite_and_type(line)?;
    let mut values = [0u32; MOST_VALUES];
    let values = given::numbers(line, 3, &mut values)?;
    let mut output = [0u8; MOST_BYTES];
    match writing::write(number, ty, values, &mut output) {
        Ok(length) => print_bytes(output.get(..length).unwrap_or(&[])),
        Err(refusal) => return Err(write_refused(refusal, number, ty, values)),
    }
    Ok(())
}

fn print_bytes(frame: &[u8]) {
    printing::bytes(frame, b"");
    printing::text(b"\n");
}

// Tests 1, 5, 10, 11: the output has room for every frame.
fn write_refused(refusal: Refusal, number: u32, ty: u32, values: &[u32]) -> Wrong<'static> {
    let Some(satellite) = Satellite::from_number(number) else {
        return Wrong::NoSatellite(number);
    };
    match refusal {
        Refusal::NotCarried => Wrong::NotCarried(satellite, ty),
        // One of the values, since a frame with too few is refused ahead of this.
        Refusal::Value(field) => {
            let value = values.get(field).copied().unwrap_or(0);
            Wrong::Value(satellite, ty, field, value)
        }
        _ => Wrong::Count(satellite, ty, values.len()),
    }
}

// edit SATELLITE FRAME FIELD VALUE
pub(crate) fn edit(line: &[u8]) -> Result<(), Wrong<'_>> {
    given::has_at_least(line, 5)?;
    let mut bytes = [0u8; MOST_BYTES];
    let mut values = [0u32; ROOM];
    let frame = frame::of(line, 2, &mut bytes, &mut values)?;
    let opened = match frame.reading {
        Ok(opened) => opened,
        Err(refusal) => {
            frame.refused(refusal);
            return Ok(());
        }
    };
    // Which fields there are, the frame's type says.
    let count = words::count(line);
    let field = given::field(words::word(line, count - 2), &opened.carried)?;
    let value = given::number(words::word(line, count - 1))?;
    let mut copy = [0u8; MOST_BYTES];
    if let Some(edited) = copy.get_mut(..frame.bytes.len()) {
        edited.copy_from_slice(frame.bytes);
        match editing::edit(frame.satellite, edited, field, value) {
            Ok(_) => {
                print_bytes(edited);
                fields::changed(&opened, field, value);
                picture::print(&opened.carried, field, frame.bytes, edited);
            }
            Err(refusal) => return Err(edit_refused(refusal, &opened.carried, field, value)),
        }
    }
    Ok(())
}

// Tests 13 and 11: the frame is one that reading accepts.
fn edit_refused(refusal: Refusal, carried: &Carried, field: usize, value: u32) -> Wrong<'static> {
    match refusal {
        Refusal::Field => Wrong::NoField(carried.satellite, carried.ty, field),
        _ => Wrong::Value(carried.satellite, carried.ty, field, value),
    }
}
