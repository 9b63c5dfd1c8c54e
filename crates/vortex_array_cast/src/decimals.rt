// Decimals cast and filled.
ghost use Rattle.std.specs.Prelude.{◌≡◌, IsTrue, IfOk, length, map};
ghost use Rattle.vortex_array_types.specs.declared.scalar.Value.TheVariants as value;
ghost use Rattle.vortex_array_kinds.specs.Kinds.{unscaled_of};
ghost use Rattle.vortex_array_kinds.specs.Validities.{is_as_long, valid_bits};
ghost use Rattle.vortex_array_cast.specs.Filled.{filled_items};

use crate::cast::{CastValues, cast_same};
use crate::fill::{FillValues, fill_items};
use std::alloc::{AllocError, Global};
use vortex_array_kinds::{DecimalBuffer, DecimalWidth, Decimals, Validity, each_decimal_width};
use vortex_array_types::{DType, ValueRef};

impl CastValues for Decimals {
    fn cast_values(&self, alloc: Global, dtype: &DType) -> Result<(Decimals, bool), AllocError> {
        cast_same(alloc, self, dtype)
    }
}

impl FillValues for Decimals {
    fn fill_values(
        &self,
        alloc: Global,
        validity: &Validity,
        fill: ValueRef<'_>,
    ) -> Result<Decimals, AllocError> {
        match fill {
            ValueRef::Decimal(number) => Ok(Decimals {
                numbers: fill_numbers(alloc, &self.numbers, validity, number)?,
                digits: self.digits,
            }),
            _ => unreachable!(),
        }
    }
}

// The unscaled numbers, and the fill at the places that are not valid.
fn fill_numbers(
    alloc: Global,
    numbers: &DecimalBuffer,
    validity: &Validity,
    fill: i128,
) -> Result<DecimalBuffer, AllocError>
    requires long { IsTrue (is_as_long validity.now (length (unscaled_of numbers.now))) }
    ensures { IfOk result (λ b. map (λ n. value.Decimal n) (unscaled_of b) ≡ filled_items (value.Decimal fill) (map (λ n. value.Decimal n) (unscaled_of numbers.now)) (valid_bits validity.now (length (unscaled_of numbers.now)))) }
{
    each_decimal_width!(numbers, items => fill_unscaled(alloc, items.as_slice(), validity, fill))
}

// The unscaled numbers in the widest width, and the fill at the places that are not valid.
fn fill_unscaled<T: DecimalWidth>(
    alloc: Global,
    items: &[T],
    validity: &Validity,
    fill: i128,
) -> Result<DecimalBuffer, AllocError>
    requires long { IsTrue (is_as_long validity.now (length (map T.unscaled items.now))) }
    ensures { IfOk result (λ b. map (λ n. value.Decimal n) (unscaled_of b) ≡ filled_items (value.Decimal fill) (map (λ n. value.Decimal n) (map T.unscaled items.now)) (valid_bits validity.now (length (map T.unscaled items.now)))) }
{
    let wide = widened(alloc, items)?;
    let filled = fill_items(alloc, wide.as_slice(), validity, fill)?;
    Ok(DecimalBuffer::I128(filled))
}

// The unscaled numbers in the widest width.
fn widened<T: DecimalWidth>(alloc: Global, items: &[T]) -> Result<Vec<i128>, AllocError>
    ensures { IfOk result (λ v. v.items ≡ map T.unscaled items.now) }
{
    items
        .iter()
        .map(|item| item.unscaled_value())
        .collect(alloc)
}
