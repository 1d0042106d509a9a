// The field tables (01, "The field tables", and 02, "One"; FORMAT 6): a table of satellites, each with its rows.
//
// A row is its type, the bytes from type byte to checksum, and then its fields in pairs, so many of so many bits
// ("48 of 16"), with zeros behind them. A first pair of 1 of 32 is the satellite's clock ("clock 32"): a row that starts with another
// field of 32 bits has an empty pair ahead.
ghost use Rattle.std.specs.Prelude.{◌≡◌, map, cond, Some, None};
ghost use Rattle.std.specs.Option.{option_map};
ghost use Rattle.layouts.specs.Layouts.{carries, entries_of, entry_of};
ghost use Rattle.layouts.specs.Rows.{says, pairs_of};

use satellites::Satellite;

// Type, size and up to seven pairs. Numbers and no struct: 01 wants arrays of arrays, and so a type is one line.
pub(crate) type Row = [u8; 16];

// clock 32, 4 of 8, 16, 3 of 12, 16, 5 of 12, 4 of 8
const TYPE_1: Row = [1, 31, 1, 32, 4, 8, 1, 16, 3, 12, 1, 16, 5, 12, 4, 8];

// ten temperatures
const TYPE_2_D: Row = [2, 13, 10, 8, 0, 0, 0, 0, 0, 0, 0, 0, 0, 0, 0, 0];

// clock 32, ten temperatures
const TYPE_2: Row = [2, 17, 1, 32, 10, 8, 0, 0, 0, 0, 0, 0, 0, 0, 0, 0];

// ten minima, ten maxima, ten means
const TYPE_5_D: Row = [5, 33, 10, 8, 10, 8, 10, 8, 0, 0, 0, 0, 0, 0, 0, 0];

// clock 32, ten minima, ten maxima
const TYPE_5: Row = [5, 27, 1, 32, 10, 8, 10, 8, 0, 0, 0, 0, 0, 0, 0, 0];

// 6 of 16, 48 of 16, 8 of 16, 8 of 8
const TYPE_6: Row = [6, 135, 6, 16, 48, 16, 8, 16, 8, 8, 0, 0, 0, 0, 0, 0];

// clock 32, message number 8, 93 characters of 8
const TYPE_7: Row = [7, 101, 1, 32, 1, 8, 93, 8, 0, 0, 0, 0, 0, 0, 0, 0];

// 8 of 16, 32, 16, then 4, 2, 1, 1, then 8, 8
const TYPE_8_D: Row = [8, 28, 8, 16, 1, 32, 1, 16, 1, 4, 1, 2, 2, 1, 2, 8];

// 8 of 16, 32, 16, then 6 of 8
const TYPE_8_SA: Row = [8, 31, 8, 16, 1, 32, 1, 16, 6, 8, 0, 0, 0, 0, 0, 0];

// clock 32, week 8, status 8, 8 of 8
const TYPE_10: Row = [10, 17, 1, 32, 1, 8, 1, 8, 8, 8, 0, 0, 0, 0, 0, 0];

// clock 32, 2 of 8
const TYPE_11: Row = [11, 9, 1, 32, 2, 8, 0, 0, 0, 0, 0, 0, 0, 0, 0, 0];

// UTC 32, 16, 12 of 32, latitude, longitude, height 16 each, 8. UTC is no clock
const TYPE_12: Row = [12, 64, 0, 0, 1, 32, 1, 16, 12, 32, 3, 16, 1, 8, 0, 0];

// The row of a type that a satellite carries.
pub(crate) fn row_of(satellite: Satellite, ty: u32) -> Option<&'static Row>
    ensures { option_map (λ r. says r.now) result ≡ cond (carries satellite ty) (Some (entry_of satellite ty)) None }
{
    rows_of(satellite).iter().find(|row| row[0] as u32 == ty)
}

// The rows of the types that a satellite carries.
#[tactic(auto, unfolding(crate::specs::Layouts::table, crate::specs::Layouts::counted, crate::specs::Layouts::among, crate::specs::Layouts::carried_by, crate::specs::Rows::pairs_of))]
fn rows_of(satellite: Satellite) -> &'static [Row]
    ensures { map says result.now ≡ entries_of satellite }
{
    match satellite {
        Satellite::HadesD => &[TYPE_2_D, TYPE_5_D, TYPE_8_D],
        Satellite::HadesIcm => &[TYPE_1, TYPE_2, TYPE_5, TYPE_6, TYPE_7, TYPE_12],
        Satellite::MariaG => &[TYPE_1, TYPE_2, TYPE_5, TYPE_6, TYPE_11, TYPE_12],
        Satellite::Unne1 => &[TYPE_1, TYPE_2, TYPE_5, TYPE_6, TYPE_10, TYPE_12],
        Satellite::HadesR => &[TYPE_1, TYPE_2, TYPE_5, TYPE_6, TYPE_12],
        Satellite::Unne1b => &[TYPE_1, TYPE_2, TYPE_5, TYPE_6, TYPE_10, TYPE_12],
        Satellite::HadesSa => &[TYPE_1, TYPE_2, TYPE_5, TYPE_8_SA, TYPE_12],
    }
}

// A row's pairs, so many fields of so many bits.
pub(crate) fn pairs(row: &Row) -> &[[u8; 2]]
    ensures { result.now ≡ pairs_of row.now }
{
    let (pairs, _) = row[2..].as_chunks();
    pairs
}

// Whether a row's first field is the clock.
pub(crate) fn starts_with_clock(row: &Row) -> bool
    ensures { result ≡ (says row.now).clock }
{
    row[2..4] == [1, 32]
}
