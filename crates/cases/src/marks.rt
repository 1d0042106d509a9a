// The marks that a room and an output hold before a call, another in each place: so one sees what the call filled, and that all else
// stayed where it was.
use crate::page::Pairs;
use std::fmt;

// What is lent: places of a room, or bytes of an output.
pub(crate) trait Mark: Copy + PartialEq {
    // The mark of place k.
    fn of(k: usize) -> Self;

    // Writes what a call filled.
    fn write_filled<W: fmt::Write>(filled: &[Self], f: &mut fmt::Formatter<W>) -> fmt::Result;
}

impl Mark for u32 {
    fn of(k: usize) -> u32 {
        4_000_000_000 + (k % 65536) as u32
    }

    fn write_filled<W: fmt::Write>(filled: &[u32], f: &mut fmt::Formatter<W>) -> fmt::Result {
        let [first, others @ ..] = filled else {
            return Ok(());
        };
        write!(f, "{first}")?;
        for value in others {
            write!(f, ",{value}")?;
        }
        Ok(())
    }
}

// Neither training nor sync nor a type byte has this value at its place.
impl Mark for u8 {
    fn of(k: usize) -> u8 {
        208 + (k % 47) as u8
    }

    fn write_filled<W: fmt::Write>(filled: &[u8], f: &mut fmt::Formatter<W>) -> fmt::Result {
        write!(f, "{}", Pairs(filled))
    }
}

pub(crate) fn put<M: Mark>(lent: &mut [M]) {
    for (k, place) in lent.iter_mut().enumerate() {
        *place = M::of(k);
    }
}

// What a call left of what is lent: all up to the last place that does not hold its mark, and how many follow it.
#[derive(Clone, Copy)]
pub(crate) struct Left<'a, M>(pub &'a [M]);

impl<M: Mark> fmt::Display for Left<'_, M> {
    fn fmt<W: fmt::Write>(&self, f: &mut fmt::Formatter<W>) -> fmt::Result {
        let kept = self
            .0
            .iter()
            .enumerate()
            .rev()
            .take_while(|(k, mark)| **mark == M::of(*k))
            .count();
        M::write_filled(&self.0[..self.0.len() - kept], f)?;
        write!(f, "+{kept}")
    }
}
