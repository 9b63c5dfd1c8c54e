// Where the nulls of a column stand: the validity is looked at once, by words.
ghost use Rattle.std.specs.Prelude.{IsTrue};
ghost use Rattle.vortex_array_kinds.specs.Validities.{is_as_long, valid_bits};
ghost use Rattle.vortex_array_order.specs.Nulls.{StandSo};

use vortex_array_kinds::Validity;
use vortex_array_rows::first_set;
use vortex_buffer::BitBuffer;

/// Where the nulls of a column stand.
pub(crate) enum Nulls {
    /// So many come first, and no row behind them is null.
    First(usize),
    /// One stands behind the first value, which is at this place.
    Behind(usize),
}

/// Where the nulls stand of so many rows.
pub(crate) fn nulls_of(validity: &Validity, len: usize) -> Nulls
    requires { IsTrue (is_as_long validity.now len) }
    ensures { StandSo (valid_bits validity.now len) result }
{
    match validity {
        Validity::NonNullable | Validity::AllValid => Nulls::First(0),
        Validity::AllInvalid => Nulls::First(len),
        Validity::Bits(bits) => unset_of(bits),
    }
}

// Where the bits stand that are not set.
fn unset_of(bits: &BitBuffer) -> Nulls
    ensures { StandSo bits.now result }
{
    match first_set(bits) {
        None => Nulls::First(bits.len()),
        Some(first) => {
            if bits.count() == bits.len() - first {
                Nulls::First(first)
            } else {
                Nulls::Behind(first)
            }
        }
    }
}
