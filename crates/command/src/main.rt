// The operators' command. A command is words: the program's arguments, or a line of standard input. `help` lists the commands.
//
// It says what the proved library answers: read, written and edited frames, readings, layouts, names. Each answer to a line ends with an
// empty line. A bad word is answered by one line, `error: ..`, and a refusal by one, `refused N: ..`; the next line is still answered.
#![tactic(auto)]

mod carried;
mod changes;
mod commands;
mod explains;
mod fields;
mod following;
mod frame;
mod given;
mod helps;
mod lines;
mod picture;
mod warmth;
mod wrong;

use input::TooLong;
use lines::{Lines, Unwritten};
use std::env::{Env, FillError};
use std::io::Read;
use std::process::ExitCode;

// The status is 1 where the program stops since the end of an answer or of a row could not be written.
fn main(rt: HostRuntime) -> ExitCode {
    match answered(&rt, &mut rt.stdin()) {
        Ok(()) => ExitCode::SUCCESS,
        Err(Unwritten) => ExitCode::FAILURE,
    }
}

fn answered<E: Env, R: Read>(env: &E, from: &mut R) -> Result<(), Unwritten> {
    // No less than a pipe holds is asked for at once.
    let mut part = io::large_buffer();
    let mut line = io::buffer();
    if !has_arguments(env) {
        return Lines::new(from, &mut part, &mut line).answer();
    }
    let rows = match joined(env, &mut line) {
        Ok(words) => commands::answer(words),
        Err(TooLong) => {
            given::line_too_long(&line);
            None
        }
    };
    match rows {
        Some(rows) => Lines::new(from, &mut part, &mut line).follow(rows),
        None => Ok(()),
    }
}

// Whether there is an argument behind the program's own name.
fn has_arguments<E: Env>(env: &E) -> bool {
    match env.arg(1, &mut io::buffer()) {
        Ok(_) | Err(FillError::TooLong) => true,
        Err(FillError::NotPresent) => false,
    }
}

// The arguments as one line, a blank behind each.
fn joined<'l, E: Env>(env: &E, line: &'l mut [u8]) -> Result<&'l [u8], TooLong> {
    let mut at = 0;
    let mut word = io::buffer();
    for i in 1..usize::MAX {
        match env.arg(i, &mut word) {
            Ok(n) => {
                at = put(line, at, &word[..n])?;
                at = put(line, at, b" ")?;
            }
            Err(FillError::TooLong) => {
                put(line, at, &word)?;
                return Err(TooLong);
            }
            Err(FillError::NotPresent) => break,
        }
    }
    line.get(..at).ok_or(TooLong)
}

// The answer is the place behind the text.
fn put(line: &mut [u8], at: usize, text: &[u8]) -> Result<usize, TooLong> {
    let end = pages::text(line, at, text);
    if end - at < text.len() {
        return Err(TooLong);
    }
    Ok(end)
}
