// The commands by their first words.
use crate::following::Rows;
use crate::wrong::Wrong;
use crate::{changes, explains, fields, following, frame, helps, warmth};

// Behind `csv` and `json` frames follow; what they become is the answer.
pub(crate) fn answer(line: &[u8]) -> Option<Rows> {
    act(line).unwrap_or_else(|wrong| {
        wrong.print();
        None
    })
}

fn act(line: &[u8]) -> Result<Option<Rows>, Wrong<'_>> {
    let word = words::word(line, 0);
    match word {
        b"csv" => return Ok(Some(following::csv(line)?)),
        b"json" => return Ok(Some(following::json(line)?)),
        b"read" => frame::read(line)?,
        b"fields" => fields::list(line)?,
        b"layouts" => fields::layouts(line)?,
        b"write" => changes::write(line)?,
        b"edit" => changes::edit(line)?,
        b"explain" => explains::explain(line)?,
        b"temperature" => warmth::temperature(line)?,
        b"summary" => warmth::summary(line)?,
        b"help" => helps::help(line)?,
        _ => return Err(helps::unknown(word)),
    }
    Ok(None)
}
