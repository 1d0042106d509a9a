// Lines of input, as they come: a program gets a line when its end is read, and does not wait for more.
#![tactic(auto)]

ghost use Rattle.std.specs.Prelude.{◌≡◌, true, ◌≤◌, length, IfSome, IfOk};
ghost use Rattle.pages.specs.Pages.{put as put·on};
ghost use Rattle.input.specs.Lines.{ready, line_of, next_place, answer, last_of, found};

use std::io::Read;

// Nothing says that input ends: so many reads are made for a line at the most.
const MOST_READS: u64 = 0xFFFF_FFFF_FFFF;

// A line for which there is too little room.
#[derive(Clone, Copy, Debug, PartialEq, Eq)]
pub struct TooLong;

// Which bytes of a part were read and are not taken yet, those from `at` up to `end`; and whether no more come, so that none are asked for
// again. At first none were read.
// Part and place are no struct: one that holds the lent part could not tell its caller that the part stays (`value` of `next`).
#[derive(Clone, Copy, Debug, PartialEq, Eq, Default)]
pub struct Place {
    pub at: usize,
    pub end: usize,
    pub ended: bool,
}

// No byte is left, and no more come.
const OVER: Place = Place {
    at: 0,
    end: 0,
    ended: true,
};

// The next line, without its end, goes to the start of `line`, and the answer is how many letters it has; of one that is too long, the
// front that fits is all of `line`. The answer is none where no line is left. The last line may have no end. `part` keeps what was read
// behind the line, and `place` says where, for the next call; of a place outside the part, what lies inside counts. Nothing is read where
// the line's end is there already, or no more come.
// In place: a call for each line is felt where lines are short.
#[inline(always)]
pub fn next<R: Read>(
    from: &mut R,
    part: &mut [u8],
    line: &mut [u8],
    place: &mut Place,
) -> Option<Result<usize, TooLong>>
    ensures letters_in_bounds { IfSome result (λ told. IfOk told (λ letters. letters ≤ length line.new)) }
    ensures line_len_unchanged { length line.new ≡ length line.old }
    ensures part_len_unchanged { length part.new ≡ length part.old }
    ensures value { ready part.old place.old ≡ true
        → (result ≡ found (length line.old) part.old place.old)
        × ((place.new ≡ next_place part.old place.old)
        × ((line.new ≡ put·on line.old 0 (line_of part.old place.old))
        × (part.new ≡ part.old))) }
    ensures reader_unchanged { ready part.old place.old ≡ true → from.new ≡ from.old }
{
    let end = place.end.min(part.len());
    let at = place.at.min(end);
    let unread = &part[at..end];
    let letters = pages::find(unread, b'\n');
    pages::text(line, 0, &unread[..letters]);
    if letters < end - at {
        place.at = at + letters + 1;
        place.end = end;
        return Some(whole(line, letters));
    }
    if place.ended {
        *place = OVER;
        return last(line, letters);
    }
    more(from, part, line, place, letters)
}

// Reads on, up to a line's end, behind so many letters of the line. Apart, since most lines are there already.
#[inline(never)]
fn more<R: Read>(
    from: &mut R,
    part: &mut [u8],
    line: &mut [u8],
    place: &mut Place,
    letters: usize,
) -> Option<Result<usize, TooLong>>
    ensures letters_in_bounds { IfSome result (λ told. IfOk told (λ letters. letters ≤ length line.new)) }
    ensures line_len_unchanged { length line.new ≡ length line.old }
    ensures part_len_unchanged { length part.new ≡ length part.old }
{
    let mut letters = letters;
    for _ in 0..MOST_READS {
        let end = read(from, part);
        if end == 0 {
            *place = OVER;
            return last(line, letters);
        }
        let came = &part[..end];
        let stop = pages::find(came, b'\n');
        pages::text(line, letters, &came[..stop]);
        letters = letters.saturating_add(stop);
        if stop < end {
            place.at = stop + 1;
            place.end = end;
            return Some(whole(line, letters));
        }
    }
    *place = OVER;
    None
}

// What has come so far, and how much it is: a program that waits for its answer gets it. Nothing comes where no more will, or where reading
// fails.
fn read<R: Read>(from: &mut R, part: &mut [u8]) -> usize
    ensures { result ≤ length part.new }
{
    from.read(part).unwrap_or(0)
}

// A line of so many letters.
fn whole(line: &[u8], letters: usize) -> Result<usize, TooLong>
    ensures letters_in_bounds { IfOk result (λ letters. letters ≤ length line.now) }
    ensures value { result ≡ answer (length line.now) letters }
{
    if line.len() < letters {
        return Err(TooLong);
    }
    Ok(letters)
}

// No more input comes. What there is of a line is the last one.
fn last(line: &[u8], letters: usize) -> Option<Result<usize, TooLong>>
    ensures letters_in_bounds { IfSome result (λ told. IfOk told (λ letters. letters ≤ length line.now)) }
    ensures value { result ≡ last_of (length line.now) letters }
{
    if letters == 0 {
        return None;
    }
    Some(whole(line, letters))
}
