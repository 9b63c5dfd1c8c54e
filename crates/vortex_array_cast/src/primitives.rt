// Whole numbers cast to another width and filled.
ghost use Rattle.std.specs.Prelude.{◌≡◌, IsTrue, IfOk, length, map};
ghost use Rattle.std.specs.List.{list_all};
ghost use Rattle.vortex_array_types.specs.Row.{in_width};
ghost use Rattle.vortex_array_types.specs.declared.scalar.Value.TheVariants as value;
ghost use Rattle.vortex_array_kinds.specs.Kinds.{len_of, numbers_of, ptype_of};
ghost use Rattle.vortex_array_kinds.specs.Validities.{is_as_long, valid_bits};
ghost use Rattle.vortex_array_cast.specs.Casts.{AreCast};
ghost use Rattle.vortex_array_cast.specs.Filled.{filled_items};

use crate::cast::CastValues;
use crate::fill::{FillValues, fill_items};
use crate::widths::cast_items;
use std::alloc::{AllocError, Global};
use vortex_array_kinds::{PrimitiveBuffer, PrimitiveWidth, Validity, each_width};
use vortex_array_types::{DType, PType, ValueRef};
use vortex_buffer::Buffer;

// The numbers of one width in another.
fn cast_to<T: PrimitiveWidth>(
    alloc: Global,
    items: &Buffer<T>,
    width: PType,
) -> Result<(PrimitiveBuffer, bool), AllocError>
    ensures width { IfOk result (λ made. ptype_of made.0 ≡ width) }
    ensures same_length { IfOk result (λ made. length (numbers_of made.0) ≡ length (map T.number items.now)) }
    ensures ok { IfOk result (λ made. AreCast (in_width width) (map T.number items.now) (numbers_of made.0)) }
    ensures fits { IfOk result (λ made. made.1 ≡ list_all (in_width width) (map T.number items.now)) }
{
    let items = items.as_slice();
    match width {
        PType::U8 => cast_items(alloc, items, 0u8),
        PType::U16 => cast_items(alloc, items, 0u16),
        PType::U32 => cast_items(alloc, items, 0u32),
        PType::U64 => cast_items(alloc, items, 0u64),
        PType::I8 => cast_items(alloc, items, 0i8),
        PType::I16 => cast_items(alloc, items, 0i16),
        PType::I32 => cast_items(alloc, items, 0i32),
        PType::I64 => cast_items(alloc, items, 0i64),
    }
}

// The numbers in another width.
fn cast_numbers(
    alloc: Global,
    values: &PrimitiveBuffer,
    width: PType,
) -> Result<(PrimitiveBuffer, bool), AllocError>
    ensures width { IfOk result (λ made. ptype_of made.0 ≡ width) }
    ensures same_length { IfOk result (λ made. len_of made.0 ≡ len_of values.now) }
    ensures ok { IfOk result (λ made. AreCast (in_width width) (numbers_of values.now) (numbers_of made.0)) }
    ensures fits { IfOk result (λ made. made.1 ≡ list_all (in_width width) (numbers_of values.now)) }
{
    each_width!(values, items => cast_to(alloc, items, width))
}

impl CastValues for PrimitiveBuffer {
    fn cast_values(
        &self,
        alloc: Global,
        dtype: &DType,
    ) -> Result<(PrimitiveBuffer, bool), AllocError> {
        match dtype {
            DType::Primitive(width, _) => {
                let made = cast_numbers(alloc, self, *width)?;
                Ok(made)
            }
            _ => unreachable!(),
        }
    }
}

// The numbers of one width, and the fill at the places that are not valid.
fn fill_width<T: PrimitiveWidth>(
    alloc: Global,
    items: &Buffer<T>,
    validity: &Validity,
    fill: i128,
) -> Result<PrimitiveBuffer, AllocError>
    requires long { IsTrue (is_as_long validity.now (length (map T.number items.now))) }
    requires within { IsTrue (in_width T.width fill) }
    ensures width { IfOk result (λ b. ptype_of b ≡ T.width) }
    ensures ok { IfOk result (λ b. map (λ n. value.Int n) (numbers_of b) ≡ filled_items (value.Int fill) (map (λ n. value.Int n) (map T.number items.now)) (valid_bits validity.now (length (map T.number items.now)))) }
{
    match T::from_value(fill) {
        Some(item) => {
            let filled = fill_items(alloc, items.as_slice(), validity, item)?;
            Ok(T::into_buffer(filled))
        }
        None => unreachable!(),
    }
}

// The numbers, and the fill at the places that are not valid.
fn fill_numbers(
    alloc: Global,
    values: &PrimitiveBuffer,
    validity: &Validity,
    fill: i128,
) -> Result<PrimitiveBuffer, AllocError>
    requires long { IsTrue (is_as_long validity.now (len_of values.now)) }
    requires within { IsTrue (in_width (ptype_of values.now) fill) }
    ensures width { IfOk result (λ b. ptype_of b ≡ ptype_of values.now) }
    ensures ok { IfOk result (λ b. map (λ n. value.Int n) (numbers_of b) ≡ filled_items (value.Int fill) (map (λ n. value.Int n) (numbers_of values.now)) (valid_bits validity.now (len_of values.now))) }
{
    each_width!(values, items => fill_width(alloc, items, validity, fill))
}

impl FillValues for PrimitiveBuffer {
    fn fill_values(
        &self,
        alloc: Global,
        validity: &Validity,
        fill: ValueRef<'_>,
    ) -> Result<PrimitiveBuffer, AllocError> {
        match fill {
            ValueRef::Int(number) => {
                let filled = fill_numbers(alloc, self, validity, number)?;
                Ok(filled)
            }
            _ => unreachable!(),
        }
    }
}
