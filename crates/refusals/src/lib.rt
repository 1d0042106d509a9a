// The numbers of refusals, by name (01, "What is refused, and in which order"; FORMAT 7). Each later request adds its own here, so that
// all numbers are side by side.
//
// What a call answers is the refusal of the first of its tests that fails: specs/Tests.antt has a call's tests in order, and proofs/ the laws
// about them. The numbers are constants beside the enum, since `printing` takes any number.
#![tactic(auto)]

ghost use Rattle.std.specs.Prelude.{◌≡◌};
ghost use Rattle.refusals.specs.Refusals.{number_of, place_in};

pub const ACCEPTED: u32 = 0;

// Satellite number above 6.
pub const SATELLITE: u32 = 1;

// Fewer bytes than training, sync, size byte if any, and type byte.
pub const SHORT: u32 = 2;

// Training or sync differs.
pub const PREAMBLE: u32 = 3;

// Address is another's.
pub const ADDRESS: u32 = 4;

// Type not carried by this satellite.
pub const TYPE: u32 = 5;

// Size byte differs from the table.
pub const SIZE: u32 = 6;

// Buffer length is not the frame's length.
pub const LENGTH: u32 = 7;

// Room for values is less than the field count.
pub const ROOM: u32 = 8;

// Checksum differs.
pub const CHECKSUM: u32 = 9;

// Number of values is not the field count, or number of codes not ten.
pub const VALUES: u32 = 10;

// A value does not fit its field, or a code is above 255.
pub const VALUE: u32 = 11;

// Output shorter than the frame.
pub const OUTPUT: u32 = 12;

// No field of that number.
pub const FIELD: u32 = 13;

// Why a call refuses. 11 names what it found: the field whose value does not fit, or the place of the code.
#[derive(Clone, Copy, Debug, PartialEq, Eq)]
pub enum Refusal {
    Satellite,
    Short,
    Preamble,
    Address,
    NotCarried,
    Size,
    Length,
    Room,
    Checksum,
    Values,
    Value(usize),
    Output,
    Field,
}

impl Refusal {
    // The number of the scope document.
    pub fn number(self) -> u32
        ensures { result ≡ number_of self }
    {
        match self {
            Refusal::Satellite => SATELLITE,
            Refusal::Short => SHORT,
            Refusal::Preamble => PREAMBLE,
            Refusal::Address => ADDRESS,
            Refusal::NotCarried => TYPE,
            Refusal::Size => SIZE,
            Refusal::Length => LENGTH,
            Refusal::Room => ROOM,
            Refusal::Checksum => CHECKSUM,
            Refusal::Values => VALUES,
            Refusal::Value(_) => VALUE,
            Refusal::Output => OUTPUT,
            Refusal::Field => FIELD,
        }
    }
    // The field or the place that 11 names; 0 with every other.
    pub fn place(self) -> usize
        ensures { result ≡ place_in self }
    {
        match self {
            Refusal::Value(place) => place,
            _ => 0,
        }
    }
}
