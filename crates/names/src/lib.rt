// The names of satellites and fields, as the satellite teams' documents print them (01, "The field tables"; FORMAT 6).
// They are bytes, and no `&str`: `in_row` takes a row of any bytes, and may not ask for more than that.
#![tactic(auto)]

mod table;

ghost use Rattle.std.specs.Prelude.{◌≡◌, [], get_or};
ghost use Rattle.names.specs.Names.{parts_of, written};
ghost use Rattle.names.specs.Fields.{satellite_name, names_of, name_of, joined_names};

use satellites::Satellite;
use table::LINES;

// No name is longer.
pub const MOST_LETTERS: usize = 16;

// The name of a field of a satellite's type. Where there is no such field it is empty. A caller that wants more than one fetches the row
// once, and asks `in_row`.
pub fn of(satellite: Satellite, ty: u32, field: usize) -> &'static [u8]
    ensures { result.now ≡ name_of satellite ty field }
{
    in_row(row(satellite, ty), field)
}

// The name of a field of a row: the row's part of that number, between single blanks, up to 16 letters of it. Where there is none it is
// empty.
pub fn in_row(row: &[u8], field: usize) -> &[u8]
    ensures value { result.now ≡ written (get_or (parts_of 32 row.now) field []) }
    ensures row_unchanged { row.exit.now ≡ row.entry.now }
{
    let name = row
        .split(|letter| *letter == b' ')
        .nth(field)
        .unwrap_or(&[]);
    &name[..name.len().min(MOST_LETTERS)]
}

// The names of the fields of a satellite's type in their order, with a blank between two. Empty for a type that the satellite does not
// carry.
pub fn row(satellite: Satellite, ty: u32) -> &'static [u8]
    ensures { result.now ≡ joined_names (names_of satellite ty) }
{
    let number = satellite.number();
    LINES
        .iter()
        .find(|line| line.sent_by.contains(&number) && line.ty == ty)
        .map_or(b"", |line| line.names)
}

// The name of a satellite (01, "Scope and rules"; FORMAT 2).
#[tactic(auto, unfolding(words::specs::Words::text))]
pub fn of_satellite(satellite: Satellite) -> &'static [u8]
    ensures { result.now ≡ satellite_name satellite }
{
    match satellite {
        Satellite::HadesD => b"HADES-D",
        Satellite::HadesIcm => b"HADES-ICM",
        Satellite::MariaG => b"MARIA-G",
        Satellite::Unne1 => b"UNNE-1",
        Satellite::HadesR => b"HADES-R",
        Satellite::Unne1b => b"UNNE-1B",
        Satellite::HadesSa => b"HADES-SA",
    }
}
