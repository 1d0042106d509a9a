// Refusals in words: the number and meaning of the scope document, then what was found and expected (01, "What is refused, and in which
// order"; FORMAT 7). Satellite and frame are two parameters, as in `fronts`.
use crate::{satellite, say, tests, text};
use satellites::Satellite;

// Why reading refused a frame. By number, as in tests: a public function here takes any number, and not a refusal's alone.
pub fn of_frame(refusal: u32, number: u32, frame: &[u8]) {
    match Satellite::from_number(number) {
        Some(satellite) => found(refusal, satellite, frame),
        None => of_number(number),
    }
}

fn found(refusal: u32, satellite: Satellite, frame: &[u8]) {
    meaning(refusal);
    tests::compared(refusal, satellite, frame);
    // From the size byte on, what is expected is a matter of the type too.
    if refusal < refusals::SIZE {
        of_satellite(satellite);
    } else {
        of_type(satellite, fronts::type_sent(satellite, frame));
    }
}

fn of_satellite(one: Satellite) {
    text(b" for ");
    satellite(one);
    text(b")");
}

fn of_type(one: Satellite, ty: u32) {
    text(b" for ");
    satellite(one);
    say!(" type {ty})");
}

pub fn of_number(found: u32) {
    meaning(refusals::SATELLITE);
    say!("{found})");
}

// A type that is asked for, in no frame.
pub fn of_type_asked(one: Satellite, ty: u32) {
    meaning(refusals::TYPE);
    say!("{ty}, expected one of");
    crate::types_carried(one);
    of_satellite(one);
}

pub fn of_count(one: Satellite, ty: u32, found: usize) {
    meaning(refusals::VALUES);
    tests::equal_to(found, fields(one, ty));
    of_type(one, ty);
}

pub fn of_value(one: Satellite, ty: u32, field: usize, value: u32) {
    meaning(refusals::VALUE);
    let width = layouts::of(one, ty).map_or(0, |layout| layout.width(field));
    tests::at_most(value as usize, greatest(width));
    text(b" for ");
    crate::name(names::of(one, ty, field));
    text(b")");
}

// The greatest number of so many bits.
fn greatest(width: usize) -> usize {
    if width <= 32 {
        0xFFFF_FFFF >> (32 - width)
    } else {
        0
    }
}

pub fn of_field(one: Satellite, ty: u32, field: usize) {
    meaning(refusals::FIELD);
    if let Some(last) = fields(one, ty).checked_sub(1) {
        tests::at_most(field, last);
    }
    of_type(one, ty);
}

// How many fields there are; none where the type is not carried.
fn fields(one: Satellite, ty: u32) -> usize {
    layouts::of(one, ty).map_or(0, |layout| layout.fields)
}

// Of a code that is given alone, and of one among a day's.
pub fn of_code(code: u32) {
    say!("{}: a code is above 255 ({code})", refusals::VALUE);
}

pub fn of_code_at(place: usize, code: u32) {
    say!(
        "{}: a code is above 255 ({code} at place {place})",
        refusals::VALUE
    );
}

pub fn of_codes(found: usize) {
    say!("{}: number of codes is not ten ({found})", refusals::VALUES);
}

// The number, its meaning, and a bracket.
fn meaning(refusal: u32) {
    say!("{refusal}");
    match refusal {
        1 => text(b": satellite number above 6 ("),
        2 => text(b": fewer bytes than training, sync, size byte if any, and type byte ("),
        3 => text(b": training or sync differs ("),
        4 => text(b": address is another's ("),
        5 => text(b": type not carried by this satellite ("),
        6 => text(b": size byte differs from the table ("),
        7 => text(b": buffer length is not the frame's length ("),
        8 => text(b": room for values is less than the field count ("),
        9 => text(b": checksum differs ("),
        10 => text(b": number of values is not the field count ("),
        11 => text(b": a value does not fit its field ("),
        12 => text(b": output shorter than the frame ("),
        13 => text(b": no field of that number ("),
        _ => text(b": no refusal ("),
    }
}
