// The body: the fields of the table, tiling it with no gap, each an unsigned number (01, "From antenna order to bytes";
// FORMAT 6).
//
// A layout is walked once, from its first width to its last, with the bit at which the next field starts.
#![tactic(auto)]

ghost use Rattle.std.specs.Prelude.{◌≡◌, ◌^◌, ltb, get_or};
ghost use Rattle.bodies.specs.Bodies.{filled, fitting, laid_from, values_from, widths_in};

use layouts::{Layout, MOST_FIELDS};

// Fills the room's places with the body's values, in the order of the fields, as far as the room goes. A field that does
// not lie inside the body reads as 0.
pub fn read(layout: Layout, body: &[u8], room: &mut [u32])
    ensures room_after { room.new ≡ filled (values_from 0 (widths_in layout) body.now) room.old }
    ensures body_unchanged { body.exit.now ≡ body.entry.now }
{
    let widths = widths(&layout);
    let count = widths.len().min(room.len());
    let mut at = 0;
    // By number: behind a loop over `room.iter_mut().zip(..)` a proof knows the room's length and none of its values.
    for (k, &width) in widths[..count].iter().enumerate() {
        room[k] = bits::read_field(body, at, width as usize);
        at += width as usize;
    }
}

// How many values fit their fields, from the first on: the lowest field number that does not fit, or the field count.
// A value that is missing counts as 0, which fits every field.
pub fn fitting(layout: Layout, values: &[u32]) -> usize
    ensures value { result ≡ fitting (widths_in layout) values.now }
    ensures values_unchanged { values.exit.now ≡ values.entry.now }
{
    let widths = widths(&layout);
    widths
        .iter()
        .zip(values)
        .position(|(&width, &value)| !fits(value, width as usize))
        .unwrap_or(widths.len())
}

// Writes the values into the body's fields, of each as many low bits as its field has. A value that is missing counts as
// 0; a field that does not lie inside the body is not written.
pub fn write(layout: Layout, values: &[u32], body: &mut [u8])
    ensures body_after { body.new ≡ laid_from 0 (widths_in layout) values.now body.old }
    ensures values_unchanged { values.exit.now ≡ values.entry.now }
{
    let mut at = 0;
    let widths = widths(&layout);
    // With the field's number, since its value may be missing.
    for (k, &width) in widths.iter().enumerate() {
        let value = values.get(k).copied().unwrap_or(0);
        bits::replace_field(body, at, width as usize, value);
        at += width as usize;
    }
}

// The widths of the fields that a layout tells of.
fn widths(layout: &Layout) -> &[u8]
    ensures { result.now ≡ widths_in layout.now }
{
    &layout.widths[..layout.fields.min(MOST_FIELDS)]
}

// Whether a value fits so many bits. In 64 bits, since a field can have 32.
pub fn fits(value: u32, width: usize) -> bool
    ensures { result ≡ ltb value (2 ^ width) }
{
    width >= 32 || (value as u64) < 1u64 << width
}
