// Fields in bytes: any start bit, any width up to 32, most significant bit first (01, "From antenna order to bytes";
// FORMAT 1).
//
// A field touches at most five bytes. They are gathered into one number, the field is cut out of it or put into it, and
// they are spread again.
#![tactic(auto)]

ghost use Rattle.std.specs.Prelude.{◌≡◌, ◌^◌, ◌*◌, ◌+◌, ◌≤◌, ◌<◌, MatchOption, length};
ghost use Rattle.bits.specs.Located.{Touches, Holds, lead};
ghost use Rattle.bits.specs.Bits.{bits_of, number, field, replaced, in_bytes, field_answer, replaced_answer};

// The bytes that a field touches, from first up to end, and how many of their bits stand behind the field.
#[derive(Clone, Copy)]
struct Place {
    first: usize,
    end: usize,
    rest: usize,
}

// The field of `width` bits from bit `at` on. Where no field of at most 32 bits lies there, the answer is 0.
pub fn read_field(bytes: &[u8], at: usize, width: usize) -> u32
    ensures value { result ≡ field_answer at width bytes.now }
    ensures bytes_unchanged { bytes.exit.now ≡ bytes.entry.now }
{
    if let Some(place) = locate(bytes.len(), at, width) {
        cut(&bytes[place.first..place.end], width, place.rest)
    } else {
        0
    }
}

// Replaces that field by the low `width` bits of `value`. Where no field lies there, every byte stays.
pub fn replace_field(bytes: &mut [u8], at: usize, width: usize, value: u32)
    ensures { bytes.new ≡ replaced_answer at width value bytes.old }
{
    if let Some(place) = locate(bytes.len(), at, width) {
        put(&mut bytes[place.first..place.end], width, place.rest, value);
    }
}

// Where the field stands in bytes of which there are `len`, if it is inside. No sum here can pass 2^64, whatever `at` is.
fn locate(len: usize, at: usize, width: usize) -> Option<Place>
    ensures { MatchOption result (width ≤ 32 → 8 * len < at + width) (λ place. Touches len at width place) }
{
    if 32 < width {
        return None;
    }
    let first = at / 8;
    let until = at % 8 + width;
    let touched = until.div_ceil(8);
    let end = first + touched;
    if end <= len {
        Some(Place {
            first,
            end,
            rest: 8 * touched - until,
        })
    } else {
        None
    }
}

// The field that has `rest` bits behind it.
fn cut(group: &[u8], width: usize, rest: usize) -> u32
    requires { Holds group.now width rest }
    ensures { result ≡ field (lead group.now width rest) width group.now }
{
    let span = power(width);
    let under = power(rest);
    (gather(group) / under % span) as u32
}

// The same field replaced.
fn put(group: &mut [u8], width: usize, rest: usize, value: u32)
    requires { Holds group.old width rest }
    ensures { group.new ≡ replaced (lead group.old width rest) width value group.old }
{
    let span = power(width);
    let under = power(rest);
    let old = gather(group);
    let ahead = old / under / span;
    spread(
        group,
        (ahead * span + value as u64 % span) * under + old % under,
    );
}

// So many numbers can `k` bits stand for.
fn power(k: usize) -> u64
    requires { k < 64 }
    ensures { (result ≡ 2 ^ k) × (0 < result) }
{
    1 << k
}

// The bytes as one number, the first the highest.
fn gather(group: &[u8]) -> u64
    requires { length group.now ≤ 5 }
    ensures { result ≡ number (bits_of group.now) }
{
    let mut sum: u64 = 0;
    for byte in group {
        sum = sum * 256 + *byte as u64;
    }
    sum
}

// The other way round: from the last byte, the lowest, to the first.
fn spread(group: &mut [u8], value: u64)
    ensures { group.new ≡ in_bytes (length group.old) value }
{
    let mut left = value;
    // By number: behind a loop over `iter_mut().rev()` a proof knows the length of `group` and none of its bytes.
    for i in (0..group.len()).rev() {
        group[i] = (left % 256) as u8;
        left /= 256;
    }
}
