// A call taken apart: its numbers, and the bytes or the list at its end.

// What is ahead of the first such letter, and what is behind it.
pub(crate) fn split_once(text: &[u8], at: u8) -> Option<(&[u8], &[u8])> {
    let mut parts = text.splitn(2, |letter| *letter == at);
    Some((parts.next()?, parts.next()?))
}

// The words behind the name, up to word `end`, where they are numbers. No call has more than three.
pub(crate) fn numbers(call: &[u8], end: usize) -> Option<[u32; 3]> {
    let mut given = [0; 3];
    for (number, k) in given.iter_mut().zip(1..end) {
        *number = words::decimal(words::word(call, k))?;
    }
    Some(given)
}

fn is_comma(letter: &u8) -> bool {
    *letter == b','
}

// Numbers with commas between them go to the start of `out`; `-` holds none.
pub(crate) fn list<'a>(text: &[u8], out: &'a mut [u32]) -> Option<&'a [u32]> {
    if text == b"-".as_slice() {
        return Some(&[]);
    }
    let held = out.get_mut(..text.split(is_comma).count())?;
    for (place, piece) in held.iter_mut().zip(text.split(is_comma)) {
        *place = words::decimal(piece)?;
    }
    Some(held)
}

// Pieces of bytes with commas between them go to the start of `out`; `-` holds none.
pub(crate) fn bytes<'a>(text: &[u8], out: &'a mut [u8]) -> Option<&'a mut [u8]> {
    if text == b"-".as_slice() {
        return Some(&mut out[..0]);
    }
    let places = out.len();
    let free = text
        .split(is_comma)
        .try_fold(&mut *out, |free, piece| with_piece(piece, free))?;
    let count = places.checked_sub(free.len())?;
    out.get_mut(..count)
}

// Bytes, or so many times the same pairs, go to the start. The answer is what is behind them.
fn with_piece<'a>(text: &[u8], free: &'a mut [u8]) -> Option<&'a mut [u8]> {
    let Some((times, text)) = split_once(text, b'*') else {
        return with_pairs(text, free);
    };
    let times = words::decimal(times)?;
    if times == 0 {
        return None;
    }
    (0..times).try_fold(free, |free, _| with_pairs(text, free))
}

fn with_pairs<'a>(text: &[u8], free: &'a mut [u8]) -> Option<&'a mut [u8]> {
    if text.is_empty() {
        return None;
    }
    let count = words::pairs(text, free).ok()?;
    free.get_mut(count..)
}
