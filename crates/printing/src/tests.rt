// The tests on a frame (01, "What is refused, and in which order"; FORMAT 7): what each finds, and what it expects. Which of them a frame
// passes is told by reading, not here. Satellite and frame are two parameters, as in `fronts`.
use crate::{byte, bytes, say, text, types_carried};
use satellites::Satellite;

// Room enough for every frame.
pub const ROOM: usize = layouts::MOST_FIELDS;

// What the test of that number finds in the frame, and what it expects.
pub fn compared(test: u32, satellite: Satellite, frame: &[u8]) {
    let at = satellite.type_byte_at();
    match test {
        refusals::SHORT => at_least(frame.len(), at + 1),
        refusals::PREAMBLE => preamble(satellite, frame),
        _ => {
            if let Some(&type_byte) = frame.get(at) {
                behind_preamble(test, satellite, frame, type_byte);
            }
        }
    }
}

// Three functions for three texts: a format is a constant.
fn at_least(found: usize, expected: usize) {
    say!("{found}, expected {expected} or more");
}

pub(crate) fn at_most(found: usize, expected: usize) {
    say!("{found}, expected {expected} or less");
}

pub(crate) fn equal_to(found: usize, expected: usize) {
    say!("{found}, expected {expected}");
}

fn preamble(satellite: Satellite, frame: &[u8]) {
    let ahead = frame.iter().take(satellite.type_byte_at());
    for (place, &found) in ahead.enumerate() {
        let expected = sent_at(satellite, place, found);
        if found != expected {
            say!("byte {place} is ");
            byte(found);
            text(b", expected ");
            return byte(expected);
        }
    }
    say!(
        "{} bytes {:02X} and ",
        satellite.training(),
        fronts::TRAINING
    );
    bytes(&fronts::SYNC, b" ");
    text(b", as expected");
}

// Training, and behind it sync; where a size byte stands, the one that was found.
fn sent_at(satellite: Satellite, place: usize, found: u8) -> u8 {
    match place.checked_sub(satellite.training()) {
        None => fronts::TRAINING,
        Some(behind) => fronts::SYNC.get(behind).copied().unwrap_or(found),
    }
}

fn behind_preamble(test: u32, satellite: Satellite, frame: &[u8], type_byte: u8) {
    let ty = fronts::type_sent(satellite, frame);
    // A type that is not carried fails ahead of the tests that ask these.
    let (from_type_byte, length, fields) = layouts::of(satellite, ty).map_or(
        (0, 0, 0),
        |layout| (layout.size, layout.frame, layout.fields),
    );
    match test {
        refusals::ADDRESS => address(satellite, type_byte),
        refusals::TYPE => {
            say!("{ty}, expected one of");
            types_carried(satellite);
        }
        refusals::SIZE => size(satellite, frame, from_type_byte),
        refusals::LENGTH => equal_to(frame.len(), length),
        refusals::ROOM => at_least(ROOM, fields),
        _ => crate::sent_parts::sums(satellite, frame),
    }
}

fn address(satellite: Satellite, type_byte: u8) {
    say!("{:X}, expected {:X}", type_byte % 16, satellite.address());
}

// The size byte is the last ahead of the type byte.
fn size(satellite: Satellite, frame: &[u8], expected: usize) {
    let ahead = frame.get(..satellite.type_byte_at());
    match ahead.and_then(|ahead| ahead.last()) {
        Some(&found) if satellite.has_size_byte() => equal_to(usize::from(found), expected),
        _ => text(b"none, expected none"),
    }
}
