// The calls about temperatures, and the way from a frame to its ten.
use crate::call;
use crate::calls::{MOST, MOST_BYTES};
use crate::leaves::TEMPERATURES;
use crate::page::{Page, Pattern};
use refusals::{ACCEPTED, Refusal};
use satellites::Satellite;
use std::fmt::Write;
use temperatures::{Reading, SENSORS, Summary};

// Where there are no degrees, 0.0 is put in their place.
pub(crate) fn temperature(page: &mut Page, text: &[u8]) -> Option<()> {
    let (refusal, kind, degrees) = match temperatures::reading_of(words::decimal(text)?) {
        Ok(Reading::Degrees(degrees)) => (ACCEPTED, 1, degrees),
        Ok(Reading::SensorError) => (ACCEPTED, 2, 0.0),
        Err(refusal) => (refusal.number(), 0, 0.0),
    };
    let pattern = Pattern(degrees);
    write!(page, "{refusal} {kind} {pattern}").ok()
}

pub(crate) fn summary(page: &mut Page, text: &[u8]) -> Option<()> {
    let mut codes = [0; MOST];
    let codes = call::list(text, &mut codes)?;
    write_summary(page, temperatures::summary_of(codes))
}

fn write_summary(page: &mut Page, summary: Result<Summary, Refusal>) -> Option<()> {
    let (refusal, place, summary) = match summary {
        Ok(summary) => (ACCEPTED, 0, summary),
        Err(refusal) => (refusal.number(), refusal.place(), Summary::NONE),
    };
    let coldest = Pattern(summary.coldest);
    let warmest = Pattern(summary.warmest);
    let count = summary.count;
    write!(page, "{refusal} {place} {coldest} {warmest} {count}").ok()
}

// Which field is the first temperature is asked of the layout; the room has places enough for every frame.
pub(crate) fn day(page: &mut Page, [number, ..]: [u32; 3], text: &[u8]) -> Option<()> {
    let mut bytes = [0; MOST_BYTES];
    let frame = call::bytes(text, &mut bytes)?;
    let mut room = [0; MOST];
    let accepted = match reading::read(number, frame, &mut room) {
        Ok(accepted) => accepted,
        Err(refusal) => return write_summary(page, Err(refusal)),
    };
    if accepted.ty != TEMPERATURES {
        return page.write_str("no temperatures").ok();
    }
    let satellite = Satellite::from_number(number)?;
    let first = layouts::of(satellite, TEMPERATURES)?.first_behind_clock();
    let codes = room.get(first..)?.get(..SENSORS)?;
    write_summary(page, temperatures::summary_of(codes))
}
