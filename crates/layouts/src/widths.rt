// The widths of a row's fields, one after another.
ghost use Rattle.std.specs.Prelude.{◌≡◌, ◌≤◌, length};
ghost use Rattle.layouts.specs.Layouts.{most_fields, laid};
ghost use Rattle.layouts.specs.Rows.{unrolled};

use crate::MOST_FIELDS;

// How many fields a row's pairs stand for, so many of so many bits, and the widths of these fields, with zeros behind them.
#[tactic(auto, using(crate::proofs::Unrolled::fields_within))]
pub(crate) fn unroll(pairs: &[[u8; 2]]) -> (usize, [u8; MOST_FIELDS])
    requires { length (unrolled pairs.now) ≤ most_fields }
    ensures fields { result.0 ≡ length (unrolled pairs.now) }
    ensures widths { result.1 ≡ laid (unrolled pairs.now) }
{
    let mut fields = 0;
    let mut widths = [0; MOST_FIELDS];
    for &[count, width] in pairs {
        let end = fields + count as usize;
        widths[fields..end].fill(width);
        fields = end;
    }
    (fields, widths)
}
