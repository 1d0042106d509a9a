// The walk over a part: bytes, and in each byte its bits, most significant first.
ghost use Rattle.std.specs.Prelude.{◌≡◌, ◌-◌, ◌/◌, ◌%◌, ◌^◌, ◌≤◌, ◌<◌};
ghost use Rattle.bits.specs.Bits.{odd, ◌⊕◌};
ghost use Rattle.scrambler.specs.Scrambler.{on_air, from, Passes};
ghost use Rattle.scrambler.specs.Walk.{Taps, PassesByte};

use crate::Direction;

// The part goes through the register. Distances that are not allowed leave both as they are.
pub(crate) fn pass(way: Direction, near: u32, far: u32, start: u32, part: &mut [u8]) -> u32
    ensures { Passes way (from near far start) part.old (from near far result) part.new }
{
    if near < 1 || far <= near || 32 < far {
        return start;
    }
    let mut sent = start;
    for byte in part.iter_mut() {
        let passed = pass_byte(way, near, far, sent, *byte);
        *byte = passed.byte;
        sent = passed.sent;
    }
    lowest(far, sent)
}

// What a byte leaves: the sent bits, the latest the lowest, and the byte that comes out.
#[derive(Clone, Copy)]
struct Passed {
    sent: u32,
    byte: u8,
}

// A byte goes through, its highest bit first.
fn pass_byte(way: Direction, near: u32, far: u32, sent: u32, byte: u8) -> Passed
    requires { Taps near far }
    ensures { PassesByte way near far sent byte result.sent result.byte }
{
    let mut held = sent;
    let mut out: u8 = 0;
    for left in (0..u8::BITS).rev() {
        let bit = (byte as u32 >> left) % 2;
        let crossed = step(near, far, held, bit);
        // of 32 sent bits the earliest is let go
        held = held % 0x8000_0000 * 2 + on_air(way, bit, crossed);
        out = out * 2 + crossed as u8;
    }
    Passed {
        sent: held,
        byte: out,
    }
}

// One bit: xor the sent bits `near` and `far` places earlier.
fn step(near: u32, far: u32, sent: u32, bit: u32) -> u32
    requires { Taps near far × (bit < 2) }
    ensures { (result < 2) × (odd result ≡ odd bit ⊕ odd (sent / 2 ^ (near - 1)) ⊕ odd (sent / 2 ^ (far - 1))) }
{
    (bit + (sent >> (near - 1)) % 2 + (sent >> (far - 1)) % 2) % 2
}

// Which of the two is on air. A switch: a type parameter would want a trait and two types beside the enum, by which definitions and laws go.
fn on_air(way: Direction, into: u32, out: u32) -> u32
    ensures { result ≡ on_air way into out }
{
    match way {
        Direction::Scramble => out,
        Direction::Unscramble => into,
    }
}

// The lowest `far` bits. In 64 bits, since `far` can be 32.
fn lowest(far: u32, sent: u32) -> u32
    requires { far ≤ 32 }
    ensures { result ≡ sent % 2 ^ far }
{
    (sent as u64 % (1u64 << far)) as u32
}
