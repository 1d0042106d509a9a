// The calls on the leaves: checksum, scrambler, bit fields, and what is a satellite's own.
use crate::call;
use crate::calls::{self, MOST_BYTES};
use crate::page::{Changed, Page};
use satellites::Satellite;
use std::fmt::Write;

// The type whose fields are temperatures alone, but for a clock.
pub(crate) const TEMPERATURES: u32 = 2;

pub(crate) fn sum(page: &mut Page, text: &[u8]) -> Option<()> {
    let mut bytes = [0; MOST_BYTES];
    let sum = checksum::of(call::bytes(text, &mut bytes)?);
    write!(page, "{sum:04X}").ok()
}

// Near and far, and the start, four bytes, ahead of the bytes that pass.
pub(crate) fn passed<F: Fn(u32, u32, u32, &mut [u8]) -> u32>(
    page: &mut Page,
    given: [u32; 3],
    text: &[u8],
    pass: F,
) -> Option<()>
    requires { F.IsAlwaysCallable pass }
{
    let [near, far, _] = given;
    let mut bytes = [0; MOST_BYTES];
    let (start, bytes) = call::bytes(text, &mut bytes)?.split_first_chunk_mut::<4>()?;
    let mut before = [0; MOST_BYTES];
    let before = calls::copied(bytes, &mut before)?;
    let sent = pass(near, far, u32::from_be_bytes(*start), bytes);
    let left = Changed { bytes, before };
    write!(page, "{sent:08X} {left}").ok()
}

// First bit and width.
pub(crate) fn field(page: &mut Page, [start, width, _]: [u32; 3], text: &[u8]) -> Option<()> {
    let mut bytes = [0; MOST_BYTES];
    let bytes = call::bytes(text, &mut bytes)?;
    let value = bits::read_field(bytes, start as usize, width as usize);
    write!(page, "{value}").ok()
}

// First bit, width and value.
pub(crate) fn replace(page: &mut Page, [start, width, value]: [u32; 3], text: &[u8]) -> Option<()> {
    let mut bytes = [0; MOST_BYTES];
    let bytes = call::bytes(text, &mut bytes)?;
    let mut before = [0; MOST_BYTES];
    let before = calls::copied(bytes, &mut before)?;
    bits::replace_field(bytes, start as usize, width as usize, value);
    let left = Changed { bytes, before };
    write!(page, "{left}").ok()
}

pub(crate) fn satellite(page: &mut Page, text: &[u8]) -> Option<()> {
    let Some(satellite) = Satellite::from_number(words::decimal(text)?) else {
        return page.write_str("none").ok();
    };
    let address = satellite.address();
    let training = satellite.training();
    let size = satellite.has_size_byte() as u32;
    let type_byte = satellite.type_byte_at();
    let first = layouts::of(satellite, TEMPERATURES)?.first_behind_clock();
    write!(page, "{address} {training} {size} {type_byte} {first}").ok()
}
