// What the words of a command are.
ghost use Rattle.std.specs.Prelude.{◌≤◌, length, OnOk};
ghost use Rattle.words.specs.Words.{words_of};

use crate::carried::Carried;
use crate::wrong::{NoBytes, Wrong};
use satellites::Satellite;

pub(crate) fn line_too_long(line: &[u8]) {
    let wrong = Wrong::Word {
        what: b"line too long",
        word: line,
        hint: b" (4096 bytes at most)",
    };
    wrong.print();
}

// Behind its name a command has words: `least` to `most`, itself among them.
pub(crate) fn has_words(line: &[u8], least: usize, most: usize) -> Result<(), Wrong<'_>> {
    has_at_least(line, least)?;
    if most < words::count(line) {
        return Err(Wrong::Word {
            what: b"a word too many",
            word: words::word(line, most),
            hint: b"",
        });
    }
    Ok(())
}

pub(crate) fn has_at_least(line: &[u8], least: usize) -> Result<(), Wrong<'_>>
    ensures { OnOk result (least ≤ length (words_of line.now)) }
{
    if words::count(line) < least {
        return Err(Wrong::Missing(words::word(line, 0)));
    }
    Ok(())
}

pub(crate) fn number(word: &[u8]) -> Result<u32, Wrong<'_>> {
    words::decimal(word).ok_or(Wrong::Word {
        what: b"not a number of 32 bits",
        word,
        hint: b"",
    })
}

// Words `first` and later are numbers, which go to the start of `out`. No line has more than there is place for.
// No `Vec`: it would bring in an error of memory, for which no command has an answer.
pub(crate) fn numbers<'l, 'o>(
    line: &'l [u8],
    first: usize,
    out: &'o mut [u32],
) -> Result<&'o [u32], Wrong<'l>> {
    let end = words::count(line);
    let n = end.saturating_sub(first).min(out.len());
    let values = &mut out[..n];
    for (value, k) in values.iter_mut().zip(first..end) {
        *value = number(words::word(line, k))?;
    }
    Ok(values)
}

// Words `first` up to `end` are a frame: pairs of hexadecimal digits, whose bytes go to the start of `out`.
pub(crate) fn frame<'l, 'o>(
    line: &'l [u8],
    first: usize,
    end: usize,
    out: &'o mut [u8],
) -> Result<&'o [u8], NoBytes<'l>> {
    let mut n = 0;
    for k in first..end {
        let word = words::word(line, k);
        n += words::pairs(word, &mut out[n..]).map_err(|why| NoBytes { word, why })?;
    }
    Ok(&out[..n])
}

// The number of the satellite that a word names, by its name or a number. Whether there is a satellite of that number is for the library
// to say.
pub(crate) fn satellite(word: &[u8]) -> Result<u32, Wrong<'_>> {
    if words::are_digits(word, 10) {
        return number(word);
    }
    let named = (0..Satellite::count())
        .filter_map(Satellite::from_number)
        .find(|satellite| is_name(word, names::of_satellite(*satellite)));
    named
        .map(|satellite| satellite.number())
        .ok_or(Wrong::Word {
            what: b"unknown satellite",
            word,
            hint: b" (HADES-D, HADES-ICM, MARIA-G, UNNE-1, HADES-R, UNNE-1B, HADES-SA, or 0 to 6)",
        })
}

pub(crate) fn known(number: u32) -> Result<Satellite, Wrong<'static>> {
    Satellite::from_number(number).ok_or(Wrong::NoSatellite(number))
}

// Satellite and type, which are the words behind the command's own.
pub(crate) fn satellite_and_type(line: &[u8]) -> Result<(u32, u32), Wrong<'_>> {
    let satellite = satellite(words::word(line, 1))?;
    let ty = number(words::word(line, 2))?;
    Ok((satellite, ty))
}

pub(crate) fn type_carried(line: &[u8]) -> Result<Carried, Wrong<'_>> {
    let (number, ty) = satellite_and_type(line)?;
    let satellite = known(number)?;
    Carried::of(satellite, ty).ok_or(Wrong::NotCarried(satellite, ty))
}

// Whether a word is a name, in upper or lower case.
pub(crate) fn is_name(word: &[u8], name: &[u8]) -> bool {
    word.len() == name.len()
        && word
            .iter()
            .zip(name)
            .all(|(a, b)| a.eq_ignore_ascii_case(b))
}

// The field of a type that a word names, by its name or a number. Whether there is a field of that number is for the library to say.
pub(crate) fn field<'l>(word: &'l [u8], of: &Carried) -> Result<usize, Wrong<'l>> {
    if words::are_digits(word, 10) {
        return Ok(number(word)? as usize);
    }
    let named = (0..of.layout.fields).find(|field| of.is_named(*field, word));
    named.ok_or(Wrong::Word {
        what: b"unknown field",
        word,
        hint: b" (the command fields lists their names)",
    })
}
