// A line's words, and what a word is: a decimal number, or bytes in hexadecimal.
//
// Every function answers for all input: nothing is asked of a caller.
#![tactic(auto)]

ghost use Rattle.std.specs.Prelude.{◌≡◌, ◌<◌, ◌≤◌, [], length, take, drop, MatchOption, IfSome};
ghost use Rattle.std.specs.List.{prefix_len};
ghost use Rattle.words.specs.Words.{is_letter, words_of, word_of};
ghost use Rattle.words.specs.Numbers.{digit_of, are_digits, decimal_of, pairs_of, left_by};

// Space, and what is below it: tab, carriage return ..
const LAST_BLANK: u8 = 32;

// Why a text is no bytes: another letter, a digit too few, more bytes than there is place for.
#[derive(Clone, Copy, Debug, PartialEq, Eq)]
pub enum PairsError {
    NotDigits,
    Odd,
    TooMany,
}

// Word number n of a line, counted from 0; where there are not so many, an empty one. Blanks part words: any number of bytes up to
// 32, ahead of the first and behind the last too. Word by word, here and in `count`: the library's `split` makes an empty part of each
// blank, which took twice as long on blank lines.
pub fn word(line: &[u8], n: usize) -> &[u8]
    ensures result_value { result.now ≡ word_of n line.now }
    ensures line_unchanged { line.exit.now ≡ line.entry.now }
{
    let mut rest = line;
    let mut left = n;
    while let Some(begun) = from_word(rest) {
        if left == 0 {
            return first_word(begun);
        }
        left -= 1;
        rest = behind_word(begun);
    }
    &[]
}

// How many words a line has.
pub fn count(line: &[u8]) -> usize
    ensures value { result ≡ length (words_of line.now) }
    ensures line_unchanged { line.exit.now ≡ line.entry.now }
{
    let mut rest = line;
    let mut words = 0;
    while let Some(begun) = from_word(rest) {
        words += 1;
        rest = behind_word(begun);
    }
    words
}

// A line from its first word on; none where it has no word.
fn from_word(line: &[u8]) -> Option<&[u8]>
    ensures cases { MatchOption result
        (words_of line.now ≡ [])
        (λ begun. (words_of begun.now ≡ words_of line.now) × (0 < prefix_len is_letter begun.now)) }
    ensures no_longer { IfSome result (λ begun. length begun.now ≤ length line.now) }
{
    let start = line.iter().position(|letter| LAST_BLANK < *letter)?;
    Some(&line[start..])
}

// The letters that a text begins with. Apart from `behind_word`: one cut that answers both parts takes a quarter more instructions.
fn first_word(text: &[u8]) -> &[u8]
    ensures { result.now ≡ take (prefix_len is_letter text.now) text.now }
{
    match text.iter().position(|letter| *letter <= LAST_BLANK) {
        Some(end) => &text[..end],
        None => text,
    }
}

// What is behind the letters that a text begins with.
fn behind_word(text: &[u8]) -> &[u8]
    ensures { result.now ≡ drop (prefix_len is_letter text.now) text.now }
{
    match text.iter().position(|letter| *letter <= LAST_BLANK) {
        Some(end) => &text[end..],
        None => &[],
    }
}

// Whether each letter is a digit of that base; an empty text has none that is not. A base above 16 takes every letter.
pub fn are_digits(text: &[u8], base: u8) -> bool
    ensures value { result ≡ are_digits base text.now }
    ensures text_unchanged { text.exit.now ≡ text.entry.now }
{
    text.iter().all(|letter| digit(*letter) < base)
}

// The number of up to 32 bits that decimal digits write, one or more; zeros may lead.
pub fn decimal(text: &[u8]) -> Option<u32>
    ensures value { result ≡ decimal_of text.now }
    ensures text_unchanged { text.exit.now ≡ text.entry.now }
{
    if text.is_empty() {
        return None;
    }
    let mut value: u32 = 0;
    for &letter in text {
        let digit = digit(letter);
        if 10 <= digit {
            return None;
        }
        value = value.checked_mul(10)?.checked_add(u32::from(digit))?;
    }
    Some(value)
}

// The bytes that pairs of hexadecimal digits write, of either case, and how many they are. They go to the start of `out`, and later
// bytes stay. Where the text is something else, or `out` has no place for them, all of it stays.
pub fn pairs(text: &[u8], out: &mut [u8]) -> Result<usize, PairsError>
    ensures value { result ≡ pairs_of text.now out.old }
    ensures text_unchanged { text.exit.now ≡ text.entry.now }
    ensures out_after { out.new ≡ left_by result text.now out.old }
{
    if !are_digits(text, 16) {
        return Err(PairsError::NotDigits);
    }
    let (pairs, rest) = text.as_chunks::<2>();
    if !rest.is_empty() {
        return Err(PairsError::Odd);
    }
    let n = pairs.len();
    if out.len() < n {
        return Err(PairsError::TooMany);
    }
    // By number: behind a loop over `out[..n].iter_mut().zip(pairs)` a proof knows none of the bytes put.
    for (i, &[high, low]) in pairs.iter().enumerate() {
        out[i] = digit(high) * 16 + digit(low);
    }
    Ok(n)
}

// A digit's value; 16 for what is no digit.
#[tactic(auto, unfolding(crate::specs::Numbers::digit_of))]
fn digit(letter: u8) -> u8
    ensures value { result ≡ digit_of letter }
    ensures upper_bound { result ≤ 16 }
{
    match letter {
        b'0'..=b'9' => letter - b'0',
        b'A'..=b'F' => letter - b'A' + 10,
        b'a'..=b'f' => letter - b'a' + 10,
        _ => 16,
    }
}
