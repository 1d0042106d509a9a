// Editing: tests 2 to 7, 9, 13 and 11 in their order, and only then the frame is changed.
ghost use Rattle.std.specs.Prelude.{◌≡◌, ◌≤◌, length};
ghost use Rattle.scrambler.specs.Scrambler.{from};
ghost use Rattle.refusals.specs.Tests.{answer_by};
ghost use Rattle.frames.specs.Answers.{written_in_numbers};
ghost use Rattle.frames.specs.Editing.{editing, frame_after};
ghost use Rattle.editing.specs.Changed.{field_tests, part_tests, part_after};

use layouts::Layout;
use refusals::Refusal;
use satellites::Satellite;
use scrambler::{FAR, NEAR, START};

pub(crate) fn edit(
    satellite: Satellite,
    frame: &mut [u8],
    field: usize,
    value: u32,
) -> Result<usize, Refusal>
    ensures value { written_in_numbers result ≡ editing (Some satellite) frame.old field value }
    ensures frame_after { frame.new ≡ frame_after (Some satellite) frame.old field value }
{
    let front = fronts::whole(satellite, frame).map_err(|refused| refused.refusal)?;
    let part = &mut frame[satellite.type_byte_at()..];
    change(NEAR, FAR, START, front.layout, field, value, part)?;
    Ok(front.layout.frame)
}

// Tests 9, 13 and 11 on what was sent from type byte to checksum; where they hold, the part takes the field's new value. A copy is opened:
// a refused part stays as it was sent. The distances and the start are numbers, as in `scrambler`.
fn change(
    near: u32,
    far: u32,
    start: u32,
    layout: Layout,
    field: usize,
    value: u32,
    part: &mut [u8],
) -> Result<(), Refusal>
    requires in_bounds { 3 ≤ length part.old }
    requires part_len_bound { length part.old ≤ 255 }
    ensures value { result ≡ answer_by (part_tests (from near far start) layout part.old field value) field tt }
    ensures part_after { part.new ≡ part_after (from near far start) layout part.old field value }
{
    let mut bytes = [0u8; sealing::MOST_BYTES];
    let copy = &mut bytes[..part.len()];
    copy.copy_from_slice(part);
    let sums = sealing::open(near, far, start, copy);
    if sums.sent != sums.computed {
        return Err(Refusal::Checksum);
    }
    test_field(layout, field, value)?;
    let bit = layout.start(field);
    let width = layout.width(field);
    let end = part.len() - sealing::CHECKSUM_BYTES;
    part.copy_from_slice(copy);
    bits::replace_field(&mut part[1..end], bit, width, value);
    sealing::seal(near, far, start, part);
    Ok(())
}

// Tests 13 and 11: there is such a field, and the value fits it.
fn test_field(layout: Layout, field: usize, value: u32) -> Result<(), Refusal>
    ensures { result ≡ answer_by (field_tests layout field value) field tt }
{
    if layout.fields <= field {
        return Err(Refusal::Field);
    }
    if !bodies::fits(value, layout.width(field)) {
        return Err(Refusal::Value(field));
    }
    Ok(())
}
