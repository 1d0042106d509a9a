// The printed table (01, "The printed table"; FORMAT 11): a heading, then one line for each satellite and type that it
// carries, in that order: satellite number, type, field count, frame length in bytes.
use crate::{TYPES, say, text};
use layouts::Layout;
use satellites::Satellite;

pub fn print() {
    text(b"sat type fields bytes\n");
    for satellite in (0..Satellite::count()).filter_map(Satellite::from_number) {
        for ty in 0..TYPES {
            if let Some(layout) = layouts::of(satellite, ty) {
                print_line(satellite, ty, layout);
            }
        }
    }
}

fn print_line(satellite: Satellite, ty: u32, layout: Layout) {
    let number = satellite.number();
    say!("{number} {ty} {} {}\n", layout.fields, layout.frame);
}
