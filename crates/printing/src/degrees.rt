// Degrees, as text: exact, since they are half degrees.
use crate::{number, text};
use std::num::saturating_f32_to_u64;
use temperatures::Reading;

// What a code stands for, in words.
pub fn meaning(code: u32) {
    match temperatures::reading_of(code) {
        Ok(Reading::Degrees(degrees)) => in_words(degrees),
        Ok(Reading::SensorError) => text(b"sensor error"),
        Err(_) => text(b"no code"),
    }
}

pub fn in_words(degrees: f32) {
    plain(degrees);
    text(b" degrees");
}

// What a code stands for where only a number can stand: the degrees, or `instead`.
pub fn or(code: u32, instead: &[u8]) {
    match temperatures::reading_of(code) {
        Ok(Reading::Degrees(degrees)) => plain(degrees),
        _ => text(instead),
    }
}

// With one digit behind the point. No format: it would write sign, digits, point and the last digit by a call each.
fn plain(degrees: f32) {
    if !degrees.is_nan() && degrees.is_sign_negative() {
        text(b"-");
    }
    let halves = saturating_f32_to_u64(degrees.abs() * 2.0);
    number(halves / 2);
    text(if halves % 2 == 0 { b".0" } else { b".5" });
}
