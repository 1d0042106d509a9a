// Body and checksum of a frame, as they were sent and as the library opens them. Where they lie is told by the table; of a type that it
// does not have, by the frame's end. Satellite and frame are two parameters, as in `fronts`.
use crate::{bytes, checksum, text};
use satellites::Satellite;
use scrambler::{FAR, NEAR, START};

// No frame that is shown is longer.
pub const MOST_BYTES: usize = 2048;

// Bytes of checksum.
pub const CHECKSUM: usize = sealing::CHECKSUM_BYTES;

// The body as it was sent.
pub fn sent(satellite: Satellite, frame: &[u8]) {
    match parts(satellite, frame) {
        Some((front, _)) => body(front),
        None => text(b"none"),
    }
}

// The body as the fields lie in it.
pub fn unscrambled(satellite: Satellite, frame: &[u8]) {
    let Some((front, _)) = parts(satellite, frame) else {
        return text(b"none");
    };
    on_copy(front, |front: &mut [u8]| {
        sealing::open_front(NEAR, FAR, START, front);
        body(front);
    });
}

// The checksum that was sent, and the one that belongs to what was sent ahead of it.
pub fn sums(satellite: Satellite, frame: &[u8]) {
    let Some((front, behind)) = parts(satellite, frame) else {
        return text(b"none");
    };
    if behind.is_empty() {
        return text(b"none");
    }
    let at = satellite.type_byte_at();
    let Some(sealed) = frame.get(at..at + front.len() + CHECKSUM) else {
        bytes(behind, b"");
        return text(b" and no more");
    };
    on_copy(sealed, |sealed: &mut [u8]| {
        let opened = sealing::open(NEAR, FAR, START, sealed);
        checksum(opened.sent);
        text(b" sent, ");
        checksum(opened.computed);
        text(b" computed");
    });
}

// What stands behind the frame.
pub fn surplus(satellite: Satellite, frame: &[u8]) {
    match frame.get(table_end(satellite, frame)..) {
        Some(surplus) if !surplus.is_empty() => bytes(surplus, b" "),
        _ => text(b"none"),
    }
}

// Where the table has a frame of this type end; of a type that is not carried, where the bytes do.
fn table_end(satellite: Satellite, frame: &[u8]) -> usize {
    let layout = layouts::of(satellite, fronts::type_sent(satellite, frame));
    layout.map_or(frame.len(), |layout| layout.frame)
}

// The frame from its type byte on: up to where the checksum begins, and from there on. Nothing where the frame ends ahead of its type byte.
fn parts(satellite: Satellite, frame: &[u8]) -> Option<(&[u8], &[u8])> {
    let at = satellite.type_byte_at();
    let sent = frame.get(at..)?;
    if sent.is_empty() {
        return None;
    }
    // A type byte is ahead of the checksum, whatever the table says.
    let checksum_at = table_end(satellite, frame).saturating_sub(at + CHECKSUM);
    sent.split_at_checked(checksum_at.max(1))
        .or(Some((sent, &[])))
}

// Opening is in place, and the frame stays.
fn on_copy<F: FnOnce(&mut [u8])>(sent: &[u8], show: F)
    requires { F.IsAlwaysCallable show }
{
    let mut copy = [0u8; MOST_BYTES];
    match copy.get_mut(..sent.len()) {
        Some(copy) => {
            copy.copy_from_slice(sent);
            show(copy);
        }
        None => text(b"too long to show"),
    }
}

// Behind the type byte.
fn body(front: &[u8]) {
    match front {
        [_, body @ ..] if !body.is_empty() => bytes(body, b" "),
        _ => text(b"none"),
    }
}
