// The picture of an edit: the sent bits of both frames, byte by byte and part by part, with the flipped ones marked and counted.
use crate::carried::Carried;
use printing::say;
use printing::sent_parts::CHECKSUM;
use satellites::Satellite;
use std::ops::Range;

pub(crate) fn print(carried: &Carried, field: usize, sent: &[u8], edited: &[u8]) {
    let picture = Picture { sent, edited };
    printing::text(b"byte, as sent, as edited, flipped\n");
    picture.clear(carried.satellite);
    let body = bits(carried.satellite.type_byte_at() + 1);
    let start = body.saturating_add(carried.layout.start(field));
    let end = start.saturating_add(carried.layout.width(field));
    let checksum = bits(sent.len().saturating_sub(CHECKSUM));
    let all = bits(sent.len());
    picture.part("body ahead of the field", body..start);
    picture.part("the field", start..end);
    picture.part("rest of the body", end..checksum);
    picture.part("checksum", checksum..all);
    picture.counted("in all", 0..all);
}

// No frame is so long that it has more.
fn bits(bytes: usize) -> usize {
    bytes.saturating_mul(8)
}

// A frame as it was sent, and as it is edited.
#[derive(Clone, Copy)]
struct Picture<'a> {
    sent: &'a [u8],
    edited: &'a [u8],
}

impl Picture<'_> {
    // Preamble, size byte where there is one, and type byte.
    fn clear(&self, satellite: Satellite) {
        let sync_end = bits(satellite.training() + Satellite::SYNC_BYTES);
        let at = bits(satellite.type_byte_at());
        self.part("preamble", 0..sync_end);
        if satellite.has_size_byte() {
            self.part("size", sync_end..at);
        }
        self.part("type", at..at.saturating_add(8));
    }

    // The rows of some bits.
    fn part(&self, label: &str, part: Range<usize>) {
        let (start, end) = (part.start, part.end);
        self.counted(label, part);
        for (place, (&sent, &edited)) in self.sent.iter().zip(self.edited).enumerate() {
            row(place, sent, edited, mask(place, start, end));
        }
    }

    fn counted(&self, label: &str, part: Range<usize>) {
        let bits = part.end.saturating_sub(part.start);
        let flipped = self.flipped(part.start, part.end);
        say!("{label}: {bits} bits, {flipped} flipped\n");
    }

    // No `sum`: it wants a bound on the number of bytes, which a slice has not, and its proof did not close.
    fn flipped(&self, from: usize, to: usize) -> u32 {
        let both = self.sent.iter().zip(self.edited).enumerate();
        both.map(|(place, (sent, edited))| ((sent ^ edited) & mask(place, from, to)).count_ones())
            .fold(0, |n: u32, ones| n.saturating_add(ones))
    }
}

// The bits of a byte that lie from `from` up to `to`.
fn mask(place: usize, from: usize, to: usize) -> u8 {
    behind(place, from) ^ behind(place, to)
}

// The bits of a byte that do not lie ahead of a bit.
fn behind(place: usize, bit: usize) -> u8 {
    let ahead = bit.saturating_sub(bits(place));
    if ahead < 8 { 0xFF >> ahead } else { 0 }
}

fn row(place: usize, sent: u8, edited: u8, mask: u8) {
    if mask == 0 {
        return;
    }
    // Not by a format: blanks and number stay two texts, of which each is written as far as it can be.
    printing::text(match place {
        0..10 => b"    ".as_slice(),
        10..100 => b"   ".as_slice(),
        _ => b"  ".as_slice(),
    });
    say!("{place}");
    shown(sent, mask, b'0', b'1');
    shown(edited, mask, b'0', b'1');
    shown(sent ^ edited, mask, b'.', b'^');
    printing::text(b"\n");
}

// The bits of a byte, the first one that is sent first.
const BITS: [u8; 8] = [0x80, 0x40, 0x20, 0x10, 0x08, 0x04, 0x02, 0x01];

// Eight bits, with a blank ahead, by a letter for 0 and one for 1; those of another part as `-`.
fn shown(byte: u8, mask: u8, zero: u8, one: u8) {
    let [a, b, c, d, e, f, g, h] = BITS.map(|bit| match (mask & bit, byte & bit) {
        (0, _) => b'-',
        (_, 0) => zero,
        _ => one,
    });
    printing::text(&[b' ', a, b, c, d, e, f, g, h]);
}
