// What the operators' command prints, on standard output: numbers, bytes, names, degrees, and why a frame is refused.
//
// A function here answers nothing, changes nothing and asks nothing. What it wrote no contract can say (docs/CONTRACTS.md).
#![tactic(auto)]

pub mod degrees;
pub mod reasons;
pub mod sent_parts;
pub mod table;
pub mod tests;

use satellites::Satellite;
use std::fmt;

// Standard output.
const STDOUT_FILENO: i32 = 1;

// Standard output, for `say!`.
#[derive(Clone, Copy)]
pub struct Stdout;

impl fmt::Write for Stdout {
    // What cannot be written is missing, and what comes behind it is still tried, as in `text`.
    fn write_str(&mut self, text: &str) -> fmt::Result {
        io::write_all(STDOUT_FILENO, text.as_bytes());
        Ok(())
    }
}

// Prints as `print!` does, which wants a runtime and a caller that answers its error: the public functions here have neither.
#[macro_export]
macro_rules! say {
    ($($text:tt)*) => {{
        let _ = std::fmt::Write::write_fmt(&mut $crate::Stdout, format_args!($($text)*));
    }};
}

// A text as it stands, with braces and quotes.
pub fn text(text: &[u8]) {
    io::write_all(STDOUT_FILENO, text);
}

pub fn number(n: u64) {
    say!("{n}");
}

// In hexadecimal, two digits a byte, with `gap` between each two bytes.
pub fn bytes(bytes: &[u8], gap: &[u8]) {
    for (place, &found) in bytes.iter().enumerate() {
        if 0 < place {
            text(gap);
        }
        byte(found);
    }
}

// One text: of a byte below 16 a format would write each digit by a call of its own.
pub fn byte(byte: u8) {
    text(&[digit(byte / 16), digit(byte)]);
}

// The digit of the low four bits.
fn digit(byte: u8) -> u8 {
    b"0123456789ABCDEF"[usize::from(byte % 16)]
}

// A checksum, as it is sent. No format, as in `byte`.
pub(crate) fn checksum(sum: u32) {
    byte((sum / 256 % 256) as u8);
    byte((sum % 256) as u8);
}

// The low four bits, as one digit. Nothing here calls it any more, but a public function stays.
pub fn half(byte: u8) {
    say!("{:X}", byte % 16);
}

// What a number stands for as a character, with a blank ahead; nothing where it is none that is seen.
pub fn character(code: u32) {
    if let Ok(letter @ b'!'..=b'~') = u8::try_from(code) {
        text(&[b' ', letter]);
    }
}

// A word that someone gave. What is no letter of the printed set, and what would end a quoted text, is shown as `?`; a long word is cut.
pub fn word(word: &[u8]) {
    for &c in word.iter().take(MOST_SHOWN) {
        text(&[letter(c)]);
    }
    if MOST_SHOWN < word.len() {
        text(b"..");
    }
}

// More letters of a word are not shown.
const MOST_SHOWN: usize = 40;

fn letter(c: u8) -> u8 {
    match c {
        b'"' | b'\\' => b'?',
        b' '..=b'~' => c,
        _ => b'?',
    }
}

// Of a satellite or a field. Since a name is a slice `text` would do, but a public function stays.
pub fn name(name: &[u8]) {
    text(name);
}

pub fn satellite(satellite: Satellite) {
    name(names::of_satellite(satellite));
}

// What the documents call a type.
pub fn type_name(ty: u32) {
    match ty {
        1 => text(b"Power"),
        2 => text(b"Temperature"),
        5 => text(b"Temp stats"),
        6 => text(b"Sunsensors"),
        7 => text(b"ICM game messages"),
        8 => text(b"Deploy"),
        10 => text(b"Nebrija University Game"),
        11 => text(b"Fraunhofer experiment information"),
        12 => text(b"Ephemeris"),
        _ => text(b"no name"),
    }
}

// Types are four bits.
pub(crate) const TYPES: u32 = 16;

// The types that a satellite carries, a blank ahead of each.
pub(crate) fn types_carried(satellite: Satellite) {
    for ty in (0..TYPES).filter(|ty| layouts::of(satellite, *ty).is_some()) {
        say!(" {ty}");
    }
}

// The satellites that send an address, a blank ahead of each.
pub fn owners(address: u8) {
    let mut found = false;
    for one in (0..Satellite::count()).filter_map(Satellite::from_number) {
        if one.address() == address {
            text(b" ");
            satellite(one);
            found = true;
        }
    }
    if !found {
        text(b" none");
    }
}
