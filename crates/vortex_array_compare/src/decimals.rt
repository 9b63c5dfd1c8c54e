// Decimals compared by their unscaled numbers.
ghost use Rattle.std.specs.Prelude.{◌≡◌, IfOk, length, map};
ghost use Rattle.std.specs.Simd.Lanes.{zip2};
ghost use Rattle.vortex_array_types.specs.Order.{compares};
ghost use Rattle.vortex_array_types.specs.declared.scalar.Value.TheVariants as value;
ghost use Rattle.vortex_array_kinds.specs.Kinds.{unscaled_of};

use crate::compare::CompareValues;
use crate::orders::compare_lanes;
use std::alloc::{AllocError, Global};
use vortex_array_kinds::{DecimalBuffer, DecimalWidth, Decimals, each_decimal_width};
use vortex_array_types::{CompareOperator, ValueRef};
use vortex_buffer::{BitBuffer, Buffer};
use vortex_compute::{IndexedSource, Repeat};

// The unscaled numbers of items, as lanes.
#[derive(Clone, Copy)]
struct UnscaledLanes<'a, T: DecimalWidth> {
    items: &'a [T],
}

impl<T: DecimalWidth> IndexedSource for UnscaledLanes<'_, T> {
    type Item = i128;

    ghost lanes = { λ s. map T.unscaled s.items.now };

    #[inline(always)]
    fn len(&self) -> usize {
        self.items.len()
    }

    #[inline(always)]
    fn get(&self, i: usize) -> i128 {
        self.items[i].unscaled_value()
    }
}

// The unscaled numbers of a buffer's items, as lanes.
fn unscaled_lanes<T: DecimalWidth>(items: &Buffer<T>) -> UnscaledLanes<'_, T>
    ensures { result.items.now ≡ items.now }
{
    UnscaledLanes {
        items: items.as_slice(),
    }
}

// The answers for the items of two widths.
fn compare_items<A: DecimalWidth, B: DecimalWidth>(
    alloc: Global,
    left: &Buffer<A>,
    right: &Buffer<B>,
    operator: CompareOperator,
) -> Result<BitBuffer, AllocError>
    requires same_length { length (map A.unscaled left.now) ≡ length (map B.unscaled right.now) }
    ensures { IfOk result (λ bits. bits ≡ zip2 (compares operator) (map (λ n. value.Decimal n) (map A.unscaled left.now)) (map (λ n. value.Decimal n) (map B.unscaled right.now))) }
{
    let bits = compare_lanes(alloc, unscaled_lanes(left), unscaled_lanes(right), operator)?;
    Ok(bits)
}

// The answers for items and one number.
fn compare_items_with<T: DecimalWidth>(
    alloc: Global,
    items: &Buffer<T>,
    number: i128,
    operator: CompareOperator,
) -> Result<BitBuffer, AllocError>
    ensures { IfOk result (λ bits. bits ≡ map (λ x. compares operator x (value.Decimal number)) (map (λ n. value.Decimal n) (map T.unscaled items.now))) }
{
    let same = Repeat::new(number, items.len());
    let bits = compare_lanes(alloc, unscaled_lanes(items), same, operator)?;
    Ok(bits)
}

// The answers for items and the numbers of a buffer.
fn compare_with_numbers<T: DecimalWidth>(
    alloc: Global,
    items: &Buffer<T>,
    other: &DecimalBuffer,
    operator: CompareOperator,
) -> Result<BitBuffer, AllocError>
    requires same_length { length (map T.unscaled items.now) ≡ length (unscaled_of other.now) }
    ensures { IfOk result (λ bits. bits ≡ zip2 (compares operator) (map (λ n. value.Decimal n) (map T.unscaled items.now)) (map (λ n. value.Decimal n) (unscaled_of other.now))) }
{
    each_decimal_width!(other, right => compare_items(alloc, items, right, operator))
}

impl CompareValues for Decimals {
    fn compare_each(
        &self,
        alloc: Global,
        other: &Decimals,
        operator: CompareOperator,
    ) -> Result<BitBuffer, AllocError> {
        let right = &other.numbers;
        each_decimal_width!(&self.numbers, items => compare_with_numbers(alloc, items, right, operator))
    }

    fn compare_with(
        &self,
        alloc: Global,
        value: ValueRef<'_>,
        operator: CompareOperator,
    ) -> Result<BitBuffer, AllocError> {
        match value {
            ValueRef::Decimal(number) => {
                each_decimal_width!(&self.numbers, items => compare_items_with(alloc, items, number, operator))
            }
            _ => unreachable!(),
        }
    }
}
