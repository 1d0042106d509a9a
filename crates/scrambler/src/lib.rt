// The scrambler, x^17 + x^12 + 1 for the satellites, and its inverse (01, "Scrambler"; FORMAT 5).
//
// Both directions are one walk over the bits. They differ in one thing: which of the bit that goes in and the bit that
// comes out is on air, and so remembered.
//
// A caller says which distances and which start it goes by, as numbers: the `far` latest sent bits, the earliest the highest. Their
// like comes back as it stands behind the part, so a body can be worked on in several parts.
// Numbers, not a struct: by a struct opening a part took 1.25 times as long, and sealing 1.39 (x86-64), since the compiler no longer saw that
// they are known.
#![tactic(auto)]

mod walk;

ghost use Rattle.scrambler.specs.Scrambler.{Passes, from};
ghost use Rattle.scrambler.specs.declared.Direction.TheVariants.{Scramble, Unscramble};

// The satellites' distances, x^17 + x^12 + 1, and the start before each body: a 1, then sixteen 0s.
pub const NEAR: u32 = 12;

pub const FAR: u32 = 17;

pub const START: u32 = 0x2C35_0000 % (1 << FAR);

#[derive(Clone, Copy, Debug, PartialEq, Eq)]
pub enum Direction {
    Scramble,
    Unscramble,
}

// Scrambles the part in place. Distances that are not allowed leave the part and the sent bits as they are.
pub fn scramble(near: u32, far: u32, start: u32, part: &mut [u8]) -> u32
    ensures { Passes Scramble (from near far start) part.old (from near far result) part.new }
{
    walk::pass(Direction::Scramble, near, far, start, part)
}

// The inverse, in the same way. Two names over one walk: a call that hands in its direction is no plainer.
pub fn unscramble(near: u32, far: u32, start: u32, part: &mut [u8]) -> u32
    ensures { Passes Unscramble (from near far start) part.old (from near far result) part.new }
{
    walk::pass(Direction::Unscramble, near, far, start, part)
}
