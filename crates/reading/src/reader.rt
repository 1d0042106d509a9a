// Reading: tests 2 to 9 in their order, and only then the room is filled.
ghost use Rattle.std.specs.Prelude.{◌≡◌, ◌≤◌, length};
ghost use Rattle.scrambler.specs.Scrambler.{from};
ghost use Rattle.frames.specs.Answers.{read_in_numbers};
ghost use Rattle.frames.specs.Frames.{clear_body};
ghost use Rattle.frames.specs.Reading.{reading, room_after, checksum_right};
ghost use Rattle.reading.specs.Told.{checked, told_to};

use frames::Accepted;
use layouts::Layout;
use refusals::Refusal;
use satellites::Satellite;
use scrambler::{FAR, NEAR, START};

pub(crate) fn read(
    satellite: Satellite,
    frame: &[u8],
    room: &mut [u32],
) -> Result<Accepted, Refusal>
    ensures value { read_in_numbers result ≡ reading (Some satellite) frame.now room.old }
    ensures room_after { room.new ≡ room_after (Some satellite) frame.now room.old }
{
    let front = fronts::whole(satellite, frame).map_err(|refused| refused.refusal)?;
    if room.len() < front.layout.fields {
        return Err(Refusal::Room);
    }
    let sent = &frame[satellite.type_byte_at()..];
    tell(NEAR, FAR, START, front.layout, sent, room)?;
    Ok(Accepted {
        ty: front.ty,
        count: front.layout.fields,
    })
}

// Test 9 on what was sent from type byte to checksum; the room takes the values of a body whose checksum is right. A copy is opened: the
// frame is lent to be read. The distances and the start are numbers, as in `scrambler`.
fn tell(
    near: u32,
    far: u32,
    start: u32,
    layout: Layout,
    sent: &[u8],
    room: &mut [u32],
) -> Result<(), Refusal>
    requires in_bounds { 3 ≤ length sent.now }
    requires sent_len_bound { length sent.now ≤ 255 }
    ensures value { result ≡ checked (checksum_right (from near far start) sent.now) }
    ensures room_after { room.new ≡ told_to (checksum_right (from near far start) sent.now) layout (clear_body (from near far start) sent.now) room.old }
{
    let mut bytes = [0u8; sealing::MOST_BYTES];
    let copy = &mut bytes[..sent.len()];
    copy.copy_from_slice(sent);
    let sums = sealing::open(near, far, start, copy);
    if sums.sent != sums.computed {
        return Err(Refusal::Checksum);
    }
    bodies::read(layout, &copy[1..sent.len() - sealing::CHECKSUM_BYTES], room);
    Ok(())
}
