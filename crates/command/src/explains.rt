// A frame taken apart, and the tests in their order: what each found and expected, and at which one reading stops.
// Satellite and frame are two parameters, as in `fronts`, which is asked with both.
use crate::carried::Carried;
use crate::frame::Frame;
use crate::wrong::Wrong;
use crate::{frame, given};
use printing::sent_parts::MOST_BYTES;
use printing::tests::ROOM;
use printing::{say, sent_parts, tests};
use refusals::Refusal;
use satellites::Satellite;

// explain SATELLITE FRAME
pub(crate) fn explain(line: &[u8]) -> Result<(), Wrong<'_>> {
    given::has_at_least(line, 3)?;
    let mut bytes = [0u8; MOST_BYTES];
    let mut values = [0u32; ROOM];
    let frame = frame::of(line, 0, &mut bytes, &mut values)?;
    match Satellite::from_number(frame.satellite) {
        Some(satellite) => taken_apart(satellite, frame),
        None => no_satellite(frame.satellite),
    }
    Ok(())
}

fn no_satellite(number: u32) {
    number_test(number);
    printing::text(b"fails\n");
    Wrong::NoSatellite(number).print();
    printing::text(b"why: a frame is read by its satellite's table, and none has this number\n");
}

fn number_test(number: u32) {
    say!("test 1, satellite number: {number}, expected 6 or less: ");
}

// Which test fails is what reading says.
fn taken_apart(satellite: Satellite, frame: Frame<'_>) {
    parts(satellite, frame.bytes);
    number_test(satellite.number());
    printing::text(b"holds\n");
    match frame.reading {
        Ok(opened) => {
            made(satellite, frame.bytes, None);
            accepted(&opened.carried);
        }
        Err(refusal) => {
            made(satellite, frame.bytes, Some(refusal.number()));
            frame.refused(refusal);
            printing::text(b"why: ");
            cause(refusal, satellite, frame.bytes);
            printing::text(b"\n");
        }
    }
}

// The tests behind the first, by their numbers from 2 on.
const TESTS: [&str; 8] = [
    "bytes",
    "training and sync",
    "address",
    "type",
    "size byte",
    "length in bytes",
    "room for values",
    "checksum",
];

// A test behind the one at which reading stops is not made.
fn made(satellite: Satellite, frame: &[u8], stop: Option<u32>) {
    for (n, what) in (2..10u32).zip(TESTS) {
        say!("test {n}, {what}: ");
        tests::compared(n, satellite, frame);
        printing::text(b": ");
        if stop == Some(n) {
            return printing::text(b"fails\n");
        }
        printing::text(b"holds\n");
    }
}

fn accepted(carried: &Carried) {
    say!("accepted: type {}, ", carried.ty);
    printing::type_name(carried.ty);
    say!(", {} fields\n", carried.layout.fields);
}

fn parts(satellite: Satellite, frame: &[u8]) {
    printing::text(b"satellite: ");
    printing::satellite(satellite);
    say!("\nbytes: {}\ntraining: ", frame.len());
    piece(frame, 0, satellite.training());
    printing::text(b"sync: ");
    piece(frame, satellite.training(), Satellite::SYNC_BYTES);
    if satellite.has_size_byte() {
        size(frame.get(..satellite.type_byte_at()));
    }
    type_byte(satellite, frame);
    printing::text(b"body, as sent: ");
    sent_parts::sent(satellite, frame);
    printing::text(b"\nbody, unscrambled: ");
    sent_parts::unscrambled(satellite, frame);
    printing::text(b"\nchecksum: ");
    sent_parts::sums(satellite, frame);
    printing::text(b"\nbehind the frame: ");
    sent_parts::surplus(satellite, frame);
    printing::text(b"\n");
}

// What there is of so many bytes.
fn piece(frame: &[u8], from: usize, length: usize) {
    match frame.get(from..) {
        None | Some([]) => printing::text(b"none\n"),
        Some(rest) => match rest.get(..length) {
            None => {
                printing::bytes(rest, b" ");
                printing::text(b" and no more\n");
            }
            Some(piece) => {
                printing::bytes(piece, b" ");
                printing::text(b"\n");
            }
        },
    }
}

// The size byte is the last ahead of the type byte.
fn size(ahead: Option<&[u8]>) {
    printing::text(b"size: ");
    match ahead {
        Some([.., byte]) => {
            printing::byte(*byte);
            say!(", says that {byte} bytes follow\n");
        }
        _ => printing::text(b"none\n"),
    }
}

fn type_byte(satellite: Satellite, frame: &[u8]) {
    let Some(&byte) = frame.get(satellite.type_byte_at()) else {
        return printing::text(b"type byte: none\n");
    };
    let ty = fronts::type_sent(satellite, frame);
    let address = byte % 16;
    printing::text(b"type byte: ");
    printing::byte(byte);
    say!(", type {ty}, address {address:X}\n");
}

// What the refusal comes of, in words.
fn cause(refusal: Refusal, satellite: Satellite, frame: &[u8]) {
    match refusal {
        Refusal::Short => printing::text(
            b"the frame ends ahead of its type byte, which would tell type and sender",
        ),
        Refusal::Preamble => printing::text(
            b"a frame starts with its satellite's training and sync. A bit has flipped, or it was cut out at another place, or is another's",
        ),
        Refusal::Address => owners(satellite, frame),
        Refusal::NotCarried => printing::text(
            b"Tolimbar's table has no row for this type of this satellite, so it cannot say where the fields lie",
        ),
        Refusal::Size => printing::text(
            b"the size byte counts the bytes behind it, and this type's row has another number",
        ),
        Refusal::Length => length(satellite, frame),
        Refusal::Checksum => printing::text(
            b"type, address, body or checksum is not what was sent: a bit has flipped, or the frame is no such frame",
        ),
        _ => printing::text(b"there is no room"),
    }
}

fn owners(satellite: Satellite, frame: &[u8]) {
    printing::text(b"the type byte's low half names the sender. Of the seven this one is sent by:");
    if let Some(byte) = frame.get(satellite.type_byte_at()) {
        printing::owners(byte % 16);
    }
}

fn length(satellite: Satellite, frame: &[u8]) {
    match layouts::of(satellite, fronts::type_sent(satellite, frame)) {
        Some(layout) if frame.len() < layout.frame => printing::text(
            b"the frame is shorter than this type's: its end is missing, or it is another satellite's",
        ),
        _ => printing::text(b"bytes that are not the frame's follow it"),
    }
}
