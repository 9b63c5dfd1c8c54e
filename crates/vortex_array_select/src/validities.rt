// Which rows of a part of a plain array are not null.
ghost use Rattle.std.specs.Prelude.{◌≡◌, ◌≤◌, IfOk, IsTrue, length, map, slice_range};
ghost use Rattle.vortex_buffer.specs.Mask.{mask_bits};
ghost use Rattle.vortex_array_kinds.specs.Validities.{is_as_long};
ghost use Rattle.vortex_array_select.specs.Selected.{kept_by};
ghost use Rattle.vortex_array_select.specs.SelectedParts.{PlacesBelow, map_bits, taken_validity};

use crate::taken::take_bits_under;
use std::alloc::{AllocError, Global};
use vortex_array_kinds::{PlainArray, Validity, Values};
use vortex_array_rows::{RowIndex, filter_bits, slice_bits};
use vortex_buffer::Mask;

// Which of the rows from `start` up to `end`, without it, are not null.
pub(crate) fn slice_validity<V: Values>(
    alloc: Global,
    array: &PlainArray<V>,
    start: usize,
    end: usize,
) -> Result<Validity, AllocError>
    requires order { start ≤ end }
    requires within { end ≤ V.count_of array.now.values }
    ensures { IfOk result (λ part. part ≡ map_bits (λ bits. slice_range bits start end) array.now.validity) }
{
    let validity = array.validity();
    match validity {
        Validity::Bits(bits) => slice_bits(alloc, bits, start, end).map(Validity::Bits),
        Validity::NonNullable | Validity::AllValid | Validity::AllInvalid => {
            validity.try_clone(alloc)
        }
    }
}

// Which of the rows that the mask keeps are not null.
pub(crate) fn filter_validity<V: Values>(
    alloc: Global,
    array: &PlainArray<V>,
    mask: &Mask,
) -> Result<Validity, AllocError>
    requires same_length { length (mask_bits mask.now) ≡ V.count_of array.now.values }
    ensures { IfOk result (λ part. part ≡ map_bits (kept_by (mask_bits mask.now)) array.now.validity) }
{
    let validity = array.validity();
    match validity {
        Validity::Bits(bits) => filter_bits(alloc, bits, mask).map(Validity::Bits),
        Validity::NonNullable | Validity::AllValid | Validity::AllInvalid => {
            validity.try_clone(alloc)
        }
    }
}

// Which of the rows at the places are not null: none at a null place.
pub(crate) fn take_validity<V: Values, P: RowIndex>(
    alloc: Global,
    array: &PlainArray<V>,
    places: &[P],
    nulls: &Validity,
) -> Result<Validity, AllocError>
    requires long { IsTrue (is_as_long nulls.now (length places.now)) }
    requires within { PlacesBelow (V.count_of array.now.values) nulls.now (map P.place places.now) }
    ensures { IfOk result (λ part. part ≡ taken_validity nulls.now (map P.place places.now) array.now.validity) }
{
    match array.validity() {
        Validity::NonNullable => nulls.try_clone(alloc),
        Validity::AllValid => nulls.try_clone(alloc).map(Validity::into_nullable),
        Validity::AllInvalid => Ok(Validity::AllInvalid),
        Validity::Bits(bits) => take_bits_under(alloc, bits, places, nulls).map(Validity::Bits),
    }
}
