// Whole numbers compared, in their native width.
ghost use Rattle.std.specs.Prelude.{◌≡◌, ◌==◌, IfOk, IsTrue, length, map};
ghost use Rattle.std.specs.Simd.Lanes.{zip2};
ghost use Rattle.vortex_array_types.specs.Order.{compares};
ghost use Rattle.vortex_array_types.specs.Row.{in_width};
ghost use Rattle.vortex_array_types.specs.Typed.{width_number};
ghost use Rattle.vortex_array_types.specs.declared.scalar.Value.TheVariants as value;
ghost use Rattle.vortex_array_kinds.specs.Kinds.{len_of, numbers_of, ptype_of};

use crate::compare::CompareValues;
use crate::orders::compare_lanes;
use std::alloc::{AllocError, Global};
use vortex_array_kinds::{PrimitiveBuffer, PrimitiveWidth, each_width};
use vortex_array_types::{CompareOperator, ValueRef};
use vortex_buffer::{BitBuffer, Buffer};
use vortex_compute::{Lanes, Repeat};

// The answers for items and the numbers of a buffer of the same width.
fn compare_items<T: PrimitiveWidth>(
    alloc: Global,
    items: &Buffer<T>,
    other: &PrimitiveBuffer,
    operator: CompareOperator,
) -> Result<BitBuffer, AllocError>
    requires same_length { length (map T.number items.now) ≡ len_of other.now }
    requires same_width { IsTrue (width_number T.width == width_number (ptype_of other.now)) }
    ensures { IfOk result (λ bits. bits ≡ zip2 (compares operator) (map (λ n. value.Int n) (map T.number items.now)) (map (λ n. value.Int n) (numbers_of other.now))) }
{
    let left = Lanes::new(items.as_slice());
    let right = Lanes::new(T::items(other).as_slice());
    let bits = compare_lanes(alloc, left, right, operator)?;
    Ok(bits)
}

// The answers for items and one number of their width.
fn compare_items_with<T: PrimitiveWidth>(
    alloc: Global,
    items: &Buffer<T>,
    number: i128,
    operator: CompareOperator,
) -> Result<BitBuffer, AllocError>
    requires within { IsTrue (in_width T.width number) }
    ensures { IfOk result (λ bits. bits ≡ map (λ x. compares operator x (value.Int number)) (map (λ n. value.Int n) (map T.number items.now))) }
{
    match T::from_value(number) {
        Some(item) => {
            let same = Repeat::new(item, items.len());
            let bits = compare_lanes(alloc, Lanes::new(items.as_slice()), same, operator)?;
            Ok(bits)
        }
        None => unreachable!(),
    }
}

impl CompareValues for PrimitiveBuffer {
    fn compare_each(
        &self,
        alloc: Global,
        other: &PrimitiveBuffer,
        operator: CompareOperator,
    ) -> Result<BitBuffer, AllocError> {
        each_width!(self, items => compare_items(alloc, items, other, operator))
    }

    fn compare_with(
        &self,
        alloc: Global,
        value: ValueRef<'_>,
        operator: CompareOperator,
    ) -> Result<BitBuffer, AllocError> {
        match value {
            ValueRef::Int(number) => {
                each_width!(self, items => compare_items_with(alloc, items, number, operator))
            }
            _ => unreachable!(),
        }
    }
}
