// Writing: tests 5, 10, 11 and 12 in their order, and only then the output is filled.
ghost use Rattle.std.specs.Prelude.{◌≡◌, ◌≤◌, length};
ghost use Rattle.scrambler.specs.Scrambler.{from};
ghost use Rattle.layouts.specs.Layouts.{layout_of};
ghost use Rattle.frames.specs.Registers.{register_of};
ghost use Rattle.frames.specs.Frames.{frame_of, frame_length};
ghost use Rattle.frames.specs.Answers.{written_in_numbers};
ghost use Rattle.frames.specs.Writing.{writing, output_after};
ghost use Rattle.writing.specs.Sent.{sent};

use layouts::Layout;
use refusals::Refusal;
use satellites::Satellite;
use scrambler::{FAR, NEAR, START};

pub(crate) fn write(
    satellite: Satellite,
    ty: u32,
    values: &[u32],
    output: &mut [u8],
) -> Result<usize, Refusal>
    ensures value { written_in_numbers result ≡ writing (Some satellite) ty values.now output.old }
    ensures output_after { output.new ≡ output_after (Some satellite) ty values.now output.old }
{
    let layout = layouts::of(satellite, ty).ok_or(Refusal::NotCarried)?;
    if values.len() != layout.fields {
        return Err(Refusal::Values);
    }
    let fitting = bodies::fitting(layout, values);
    if fitting != layout.fields {
        return Err(Refusal::Value(fitting));
    }
    let length = layout.frame;
    if output.len() < length {
        return Err(Refusal::Output);
    }
    frame(satellite, ty, values, layout, &mut output[0..length]);
    Ok(length)
}

// The whole frame, in a part of its length.
fn frame(satellite: Satellite, ty: u32, values: &[u32], layout: Layout, part: &mut [u8])
    requires layout_value { layout_of satellite ty ≡ Some layout }
    requires part_len { length part.old ≡ frame_length satellite ty }
    ensures { part.new ≡ frame_of (register_of satellite) satellite ty values.now }
{
    let at = satellite.type_byte_at();
    fronts::write(satellite, layout.size as u8, &mut part[0..at]);
    let typed = ty as u8 * 16 + satellite.address();
    send(NEAR, FAR, START, typed, values, layout, &mut part[at..]);
}

// From type byte to checksum. The distances and the start are numbers, as in `scrambler`.
fn send(near: u32, far: u32, start: u32, typed: u8, values: &[u32], layout: Layout, part: &mut [u8])
    requires { 3 ≤ length part.old }
    ensures { part.new ≡ sent (from near far start) typed layout values.now part.old }
{
    let end = part.len() - sealing::CHECKSUM_BYTES;
    bodies::write(layout, values, &mut part[1..end]);
    part[0] = typed;
    sealing::seal(near, far, start, part);
}
