// What comes before the type byte (01, "From antenna order to bytes"; FORMAT 3): training, sync, and a size byte where there is one.
// The reader compares these bytes, and the writer writes them.
ghost use Rattle.std.specs.Prelude.{◌≡◌, ◌≤◌, ◌↔◌, length, slice_index, EachIndex, IsTrue};
ghost use Rattle.satellites.specs.Satellites.{type_byte_at};
ghost use Rattle.frames.specs.Reading.{preambled};
ghost use Rattle.fronts.specs.Fronts.{front_after};

use satellites::Satellite;

// Each byte of training.
pub const TRAINING: u8 = 0xAA;

// The two bytes behind it.
pub const SYNC: [u8; Satellite::SYNC_BYTES] = *b"\xBF\x35";

// Test 3: whether training and sync are the satellite's.
pub(crate) fn is_right(satellite: Satellite, frame: &[u8]) -> bool
    requires { type_byte_at satellite ≤ length frame.now }
    ensures { result ≡ preambled satellite frame.now }
{
    let (training, behind) = frame.split_at(satellite.training());
    is_training(training) && behind.starts_with(&SYNC)
}

fn is_training(bytes: &[u8]) -> bool
    ensures { IsTrue result ↔ EachIndex bytes.now (λ k. slice_index bytes.now k ≡ 0xAA) }
{
    bytes.iter().all(|&byte| byte == TRAINING)
}

// Fills a part that is as long as what comes before the type byte. A part of another length stays as it is.
pub fn write(satellite: Satellite, size: u8, part: &mut [u8])
    ensures { part.new ≡ front_after satellite size part.old }
{
    if part.len() != satellite.type_byte_at() {
        return;
    }
    let n = satellite.training();
    part[..n].fill(TRAINING);
    part[n..n + Satellite::SYNC_BYTES].copy_from_slice(&SYNC);
    if satellite.has_size_byte() {
        part[n + Satellite::SYNC_BYTES] = size;
    }
}
