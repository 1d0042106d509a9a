// The checksum of a frame: CRC-CCITT-FALSE (01, "Checksum"; FORMAT 4).
#![tactic(auto)]

ghost use Rattle.std.specs.Prelude.{◌≡◌, false};
ghost use Rattle.bits.specs.Bits.{bits, number};
ghost use Rattle.checksum.specs.Checksum.{checksum, stepped, divided};

const POLYNOMIAL: u16 = 0x1021;

const START: u16 = 0xFFFF;

// The checksum of all the bytes.
pub fn of(bytes: &[u8]) -> u16
    ensures value { result ≡ checksum bytes.now }
    ensures bytes_unchanged { bytes.exit.now ≡ bytes.entry.now }
{
    bytes
        .iter()
        .fold(START, |register, &byte| step(register, byte))
}

// The register after one byte more. The byte's bits meet the register's eight highest ones, which are the next eight to
// leave: they can be brought in at once, and eight divisions with no data bit follow.
pub fn step(register: u16, byte: u8) -> u16
    ensures { result ≡ stepped register byte }
{
    let mut r = register ^ (byte as u16 * 256);
    for _ in 0..u8::BITS {
        r = shifted(r);
    }
    r
}

// One bit of the division, the data bit already brought in: where a 1 leaves, the polynomial is taken off. By a product, which the
// next bit has to wait for less long than for a test.
fn shifted(register: u16) -> u16
    ensures { result ≡ number (divided (bits 16 register) false) }
{
    let moved = register % 32768 * 2;
    moved ^ (register / 32768 * POLYNOMIAL)
}
