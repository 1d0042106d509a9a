// What lies from type byte to checksum: opened where it came, sealed where it is to be sent (01, "From antenna order to bytes"; FORMAT 3
// to 5). This is the one door to the scrambler and the checksum: every call on a frame goes through it.
//
// Callers hand in the distances and the start as numbers: each satellite can have its own, and the compiler still sees through them. All
// functions answer for all input, for too few bytes too.
#![tactic(auto)]

ghost use Rattle.std.specs.Prelude.{◌≡◌, ◌-◌};
ghost use Rattle.scrambler.specs.Scrambler.{from};
ghost use Rattle.sealing.specs.Sealing.{opened_front, opened_part, sums_of, sealed_part};

// A size byte can hold the length of any part.
pub const MOST_BYTES: usize = 255;

// Bytes of checksum, the last of a part.
pub const CHECKSUM_BYTES: usize = 2;

// Type byte and checksum, with no body between them.
const LEAST_BYTES: usize = 3;

// The checksum that was sent, and the one that belongs to what was sent ahead of it.
#[derive(Clone, Copy, Debug, PartialEq, Eq)]
pub struct Sums {
    pub sent: u32,
    pub computed: u32,
}

// Opens a front, in place: type byte and as much of the body as has come, with no checksum in it. The body is unscrambled.
pub fn open_front(near: u32, far: u32, start: u32, front: &mut [u8])
    ensures { front.new ≡ opened_front (from near far start) front.old }
{
    if !front.is_empty() {
        scrambler::unscramble(near, far, start, &mut front[1..]);
    }
}

// Opens a part, in place: the body between type byte and checksum is unscrambled. The checksum is right where both sums are the same.
pub fn open(near: u32, far: u32, start: u32, part: &mut [u8]) -> Sums
    ensures value { result ≡ sums_of (from near far start) part.old }
    ensures part_after { part.new ≡ opened_part (from near far start) part.old }
{
    let (front, last) = part.split_at_mut(part.len().saturating_sub(CHECKSUM_BYTES));
    open_front(near, far, start, front);
    Sums {
        sent: bits::read_field(last, 0, 16),
        computed: checksum::of(front) as u32,
    }
}

// Seals a part whose body is in the clear: writes the checksum behind the body, and lends the body's part on to be scrambled.
pub fn seal(near: u32, far: u32, start: u32, part: &mut [u8])
    ensures { part.new ≡ sealed_part (from near far start) part.old }
{
    if part.len() < LEAST_BYTES {
        return;
    }
    let (front, last) = part.split_at_mut(part.len() - CHECKSUM_BYTES);
    last.copy_from_slice(&checksum::of(front).to_be_bytes());
    scrambler::scramble(near, far, start, &mut front[1..]);
}
