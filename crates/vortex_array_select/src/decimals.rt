// Parts of decimals. Each pass is generic over the width.
ghost use Rattle.std.specs.Prelude.{◌≡◌, ◌≤◌, IfOk, IsTrue, length, map, slice_range};
ghost use Rattle.vortex_buffer.specs.Mask.{mask_bits};
ghost use Rattle.vortex_array_types.specs.declared.scalar.Value.TheVariants as value;
ghost use Rattle.vortex_array_kinds.specs.Kinds.{unscaled_of};
ghost use Rattle.vortex_array_kinds.specs.Validities.{is_as_long};
ghost use Rattle.vortex_array_select.specs.Selected.{kept_by};
ghost use Rattle.vortex_array_select.specs.SelectedParts.{AreTaken, PlacesBelow};

use crate::select::SelectValues;
use crate::taken::take_items_under;
use std::alloc::{AllocError, Global};
use vortex_array_kinds::{DecimalWidth, Decimals, Validity, each_decimal_width};
use vortex_array_rows::{RowIndex, filter_items, slice_items};
use vortex_array_types::DecimalDType;
use vortex_buffer::{Buffer, Mask};

// The numbers from `start` up to `end`, without it.
fn slice_in<T: DecimalWidth>(
    alloc: Global,
    items: &Buffer<T>,
    digits: DecimalDType,
    start: usize,
    end: usize,
) -> Result<Decimals, AllocError>
    requires order { start ≤ end }
    requires within { end ≤ length (map T.unscaled items.now) }
    ensures digits { IfOk result (λ part. part.digits ≡ digits) }
    ensures items { IfOk result (λ part. map (λ n. value.Decimal n) (unscaled_of part.numbers) ≡ slice_range (map (λ n. value.Decimal n) (map T.unscaled items.now)) start end) }
{
    let part = slice_items(alloc, items.as_slice(), start, end)?;
    let numbers = T::into_buffer(part);
    Ok(Decimals { numbers, digits })
}

// The numbers that the mask keeps.
fn filter_in<T: DecimalWidth>(
    alloc: Global,
    items: &Buffer<T>,
    digits: DecimalDType,
    mask: &Mask,
) -> Result<Decimals, AllocError>
    requires same_length { length (mask_bits mask.now) ≡ length (map T.unscaled items.now) }
    ensures digits { IfOk result (λ kept. kept.digits ≡ digits) }
    ensures items { IfOk result (λ kept. map (λ n. value.Decimal n) (unscaled_of kept.numbers) ≡ kept_by (mask_bits mask.now) (map (λ n. value.Decimal n) (map T.unscaled items.now))) }
{
    let kept = filter_items(alloc, items.as_slice(), mask)?;
    let numbers = T::into_buffer(kept);
    Ok(Decimals { numbers, digits })
}

// The numbers at places, and the default where a place is null.
fn take_in<T: DecimalWidth, P: RowIndex>(
    alloc: Global,
    items: &Buffer<T>,
    digits: DecimalDType,
    places: &[P],
    nulls: &Validity,
    default: T,
) -> Result<Decimals, AllocError>
    requires long { IsTrue (is_as_long nulls.now (length places.now)) }
    requires within { PlacesBelow (length (map T.unscaled items.now)) nulls.now (map P.place places.now) }
    ensures digits { IfOk result (λ part. part.digits ≡ digits) }
    ensures items { IfOk result (λ part. AreTaken nulls.now (map P.place places.now) (map (λ n. value.Decimal n) (map T.unscaled items.now)) (map (λ n. value.Decimal n) (unscaled_of part.numbers))) }
{
    let taken = take_items_under(alloc, items.as_slice(), places, nulls, default)?;
    let numbers = T::into_buffer(taken);
    Ok(Decimals { numbers, digits })
}

impl SelectValues for Decimals {
    fn slice_values(
        &self,
        alloc: Global,
        start: usize,
        end: usize,
    ) -> Result<Decimals, AllocError> {
        each_decimal_width!(&self.numbers, items => slice_in(alloc, items, self.digits, start, end))
    }

    fn filter_values(&self, alloc: Global, mask: &Mask) -> Result<Decimals, AllocError> {
        each_decimal_width!(&self.numbers, items => filter_in(alloc, items, self.digits, mask))
    }

    fn take_values<P: RowIndex>(
        &self,
        alloc: Global,
        places: &[P],
        nulls: &Validity,
    ) -> Result<Decimals, AllocError> {
        each_decimal_width!(&self.numbers, items => take_in(alloc, items, self.digits, places, nulls, 0))
    }
}
