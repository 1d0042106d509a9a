// Layouts: the fields of each type that a satellite carries (01, "The field tables"; FORMAT 6).
#![tactic(auto)]

mod table;
mod widths;

ghost use Rattle.std.specs.Prelude.{◌≡◌};
ghost use Rattle.layouts.specs.Layouts.{layout_of, width_at, start_at, first_behind_clock};

use satellites::Satellite;

// No row has more fields.
pub const MOST_FIELDS: usize = 95;

// What a satellite's type is made of: how many fields, their widths in bits, the bytes from type byte to checksum, the bytes
// of the whole frame, and whether the first field is the satellite's clock, 32 bits. It is fetched once and then walked. The widths
// are an array, with zeros behind them, since the library allocates nothing.
#[derive(Clone, Copy, Debug, PartialEq, Eq)]
pub struct Layout {
    pub fields: usize,
    pub size: usize,
    pub frame: usize,
    pub clock: bool,
    pub widths: [u8; MOST_FIELDS],
}

// The layout of a type that the satellite carries.
pub fn of(satellite: Satellite, ty: u32) -> Option<Layout>
    ensures { result ≡ layout_of satellite ty }
{
    let row = table::row_of(satellite, ty)?;
    let size = row[1] as usize;
    let (fields, widths) = widths::unroll(table::pairs(row));
    let frame = satellite.type_byte_at() + size;
    let clock = table::starts_with_clock(row);
    Some(Layout {
        fields,
        size,
        frame,
        clock,
        widths,
    })
}

impl Layout {
    // The width of a field in bits; 0 where there is no field of that number.
    pub fn width(self, field: usize) -> usize
        ensures { result ≡ width_at self.widths field }
    {
        self.widths.get(field).copied().unwrap_or(0) as usize
    }

    // The bit of the body at which a field starts; the body's end where there is no field of that number.
    pub fn start(self, field: usize) -> usize
        ensures { result ≡ start_at self.widths field }
    {
        self.widths
            .iter()
            .take(field)
            .map(|width| *width as usize)
            .sum()
    }

    // The first field that is not the clock: 1 where the fields start with one, else 0.
    pub fn first_behind_clock(self) -> usize
        ensures { result ≡ first_behind_clock self.clock }
    {
        if self.clock { 1 } else { 0 }
    }
}
