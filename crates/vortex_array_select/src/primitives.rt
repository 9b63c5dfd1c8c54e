// Parts of whole numbers. Each pass is generic over the width.
ghost use Rattle.std.specs.Prelude.{◌≡◌, ◌≤◌, IfOk, IsTrue, length, map, slice_range};
ghost use Rattle.vortex_buffer.specs.Mask.{mask_bits};
ghost use Rattle.vortex_array_types.specs.declared.scalar.Value.TheVariants as value;
ghost use Rattle.vortex_array_kinds.specs.Kinds.{numbers_of, ptype_of};
ghost use Rattle.vortex_array_kinds.specs.Validities.{is_as_long};
ghost use Rattle.vortex_array_select.specs.Selected.{kept_by};
ghost use Rattle.vortex_array_select.specs.SelectedParts.{AreTaken, PlacesBelow};

use crate::select::SelectValues;
use crate::taken::take_items_under;
use std::alloc::{AllocError, Global};
use vortex_array_kinds::{PrimitiveBuffer, PrimitiveWidth, Validity, each_width};
use vortex_array_rows::{RowIndex, filter_items, slice_items};
use vortex_buffer::{Buffer, Mask};

// The numbers from `start` up to `end`, without it.
fn slice_in<T: PrimitiveWidth>(
    alloc: Global,
    items: &Buffer<T>,
    start: usize,
    end: usize,
) -> Result<PrimitiveBuffer, AllocError>
    requires order { start ≤ end }
    requires within { end ≤ length (map T.number items.now) }
    ensures width { IfOk result (λ part. ptype_of part ≡ T.width) }
    ensures items { IfOk result (λ part. map (λ n. value.Int n) (numbers_of part) ≡ slice_range (map (λ n. value.Int n) (map T.number items.now)) start end) }
{
    let part = slice_items(alloc, items.as_slice(), start, end)?;
    Ok(T::into_buffer(part))
}

// The numbers that the mask keeps.
fn filter_in<T: PrimitiveWidth>(
    alloc: Global,
    items: &Buffer<T>,
    mask: &Mask,
) -> Result<PrimitiveBuffer, AllocError>
    requires same_length { length (mask_bits mask.now) ≡ length (map T.number items.now) }
    ensures width { IfOk result (λ kept. ptype_of kept ≡ T.width) }
    ensures items { IfOk result (λ kept. map (λ n. value.Int n) (numbers_of kept) ≡ kept_by (mask_bits mask.now) (map (λ n. value.Int n) (map T.number items.now))) }
{
    let kept = filter_items(alloc, items.as_slice(), mask)?;
    Ok(T::into_buffer(kept))
}

// The numbers at places, and the default where a place is null.
fn take_in<T: PrimitiveWidth, P: RowIndex>(
    alloc: Global,
    items: &Buffer<T>,
    places: &[P],
    nulls: &Validity,
    default: T,
) -> Result<PrimitiveBuffer, AllocError>
    requires long { IsTrue (is_as_long nulls.now (length places.now)) }
    requires within { PlacesBelow (length (map T.number items.now)) nulls.now (map P.place places.now) }
    ensures width { IfOk result (λ part. ptype_of part ≡ T.width) }
    ensures items { IfOk result (λ part. AreTaken nulls.now (map P.place places.now) (map (λ n. value.Int n) (map T.number items.now)) (map (λ n. value.Int n) (numbers_of part))) }
{
    let taken = take_items_under(alloc, items.as_slice(), places, nulls, default)?;
    Ok(T::into_buffer(taken))
}

impl SelectValues for PrimitiveBuffer {
    fn slice_values(
        &self,
        alloc: Global,
        start: usize,
        end: usize,
    ) -> Result<PrimitiveBuffer, AllocError> {
        each_width!(self, items => slice_in(alloc, items, start, end))
    }

    fn filter_values(&self, alloc: Global, mask: &Mask) -> Result<PrimitiveBuffer, AllocError> {
        each_width!(self, items => filter_in(alloc, items, mask))
    }

    fn take_values<P: RowIndex>(
        &self,
        alloc: Global,
        places: &[P],
        nulls: &Validity,
    ) -> Result<PrimitiveBuffer, AllocError> {
        each_width!(self, items => take_in(alloc, items, places, nulls, 0))
    }
}
