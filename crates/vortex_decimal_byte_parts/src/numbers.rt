// The numbers that parts keep, and which rows are null.
ghost use Rattle.std.specs.Prelude.{◌≡◌, ℕ, All, IfOk, IsTrue, Some, is_some, length, map, replicate};
ghost use Rattle.std.specs.List.{AllZip};
ghost use Rattle.vortex_array_types.specs.Row.{in_width, is_nullable, nullability, value_fits};
ghost use Rattle.vortex_array_types.specs.declared.scalar.Value.TheVariants.{Int};
ghost use Rattle.vortex_array_types.specs.declared.types.DType.TheVariants as dtypes;
ghost use Rattle.vortex_array_types.specs.declared.types.Nullability.TheVariants.{NonNullable};
ghost use Rattle.vortex_array_kinds.specs.Kinds.{numbers_of, ptype_of};
ghost use Rattle.vortex_array_kinds.specs.Validities.{is_as_long, nullability_of, valid_bits};
ghost use Rattle.vortex_array.specs.ColumnOf.{column_of};
ghost use Rattle.vortex_array.specs.Plain.{is_primitive_type};
ghost use Rattle.vortex_array.specs.Single.{number_held};
ghost use Rattle.vortex_decimal_byte_parts.specs.Held.{Holds, part_numbers};

use std::alloc::{AllocError, Global};
use vortex_array::{
    Array, DType, NativeValue, Nullability, PType, PrimitiveBuffer, Scalar, Validity, ValueRef,
};
use vortex_array_kinds::{PrimitiveWidth, each_width};
use vortex_buffer::Buffer;

// Each number lies in its width. The compiler leaves nothing of the loop, which only says so.
#[inline(always)]
pub(crate) fn items_fit<T: NativeValue>(items: &[T])
    ensures { All (λ n. IsTrue (in_width T.width n)) (map T.number items.now) }
{
    for item in items {
        let _number = item.value();
    }
}

// Each number of a buffer lies in its width.
#[inline(always)]
fn buffer_fits(values: &PrimitiveBuffer)
    ensures { All (λ n. IsTrue (in_width (ptype_of values.now) n)) (numbers_of values.now) }
{
    each_width!(values, items => items_fit(items.as_slice()))
}

// Each number of a part lies in the width of its type.
#[inline(always)]
pub(crate) fn numbers_fit(part: &Array)
    requires { IsTrue (is_primitive_type (column_of part.now).dtype) }
    ensures { All (λ n. IsTrue (value_fits (column_of part.now).dtype (Int n))) (part_numbers part.now) }
{
    match part {
        Array::Primitive(plain) => buffer_fits(plain.values()),
        Array::Constant(constant) => {
            let _number = number_in(constant.scalar());
        }
        _ => unreachable!(),
    }
}

// Each row of a part that is not null is the number in its place; where the type has no nulls, each row is.
pub(crate) fn rows_hold(part: &Array)
    requires { IsTrue (is_primitive_type (column_of part.now).dtype) }
    ensures rows { AllZip (Holds Int) (column_of part.now).rows (part_numbers part.now) }
    ensures full { nullability (column_of part.now).dtype ≡ NonNullable → (column_of part.now).rows ≡ map (λ n. Some (Int n)) (part_numbers part.now) }
{
    match part {
        Array::Primitive(plain) => {
            let _validity = plain.validity();
        }
        Array::Constant(constant) => {
            let _number = number_in(constant.scalar());
        }
        _ => unreachable!(),
    }
}

// The number of a row, 0 where it is null.
pub(crate) fn number_in(scalar: &Scalar) -> i128
    requires { IsTrue (is_primitive_type scalar.now.dtype) }
    ensures number { result ≡ number_held scalar.now.value }
    ensures fits { IsTrue (value_fits scalar.now.dtype (Int (number_held scalar.now.value))) }
    ensures row { Holds Int scalar.now.value (number_held scalar.now.value) }
    ensures full { nullability scalar.now.dtype ≡ NonNullable → scalar.now.value ≡ Some (Int (number_held scalar.now.value)) }
{
    match scalar.value_ref() {
        Some(ValueRef::Int(number)) => number,
        Some(_) => unreachable!(),
        None => 0,
    }
}

// The width of a part.
pub(crate) fn width_of(part: &Array) -> PType
    requires { IsTrue (is_primitive_type (column_of part.now).dtype) }
    ensures { (column_of part.now).dtype ≡ dtypes.Primitive result (nullability (column_of part.now).dtype) }
{
    match part.dtype() {
        DType::Primitive(width, _) => width,
        _ => unreachable!(),
    }
}

// Which rows of a part are not null.
pub(crate) fn part_validity(alloc: Global, part: &Array) -> Result<Validity, AllocError>
    requires { IsTrue (is_primitive_type (column_of part.now).dtype) }
    ensures long { IfOk result (λ v. IsTrue (is_as_long v (length (column_of part.now).rows))) }
    ensures present { IfOk result (λ v. valid_bits v (length (column_of part.now).rows) ≡ map is_some (column_of part.now).rows) }
    ensures nulls { IfOk result (λ v. nullability_of v ≡ nullability (column_of part.now).dtype) }
{
    match part {
        Array::Primitive(plain) => {
            let validity = plain.validity().try_clone(alloc)?;
            Ok(validity)
        }
        Array::Constant(constant) => Ok(equal_validity(constant.scalar())),
        _ => unreachable!(),
    }
}

// That of equal rows.
fn equal_validity(scalar: &Scalar) -> Validity
    ensures long { (n : ℕ) → IsTrue (is_as_long result n) }
    ensures present { (n : ℕ) → valid_bits result n ≡ replicate n (is_some scalar.now.value) }
    ensures nulls { nullability_of result ≡ nullability scalar.now.dtype }
{
    match scalar.value_ref() {
        None => Validity::AllInvalid,
        Some(_) => Validity::of_values(scalar.dtype().nullability()),
    }
}

// The numbers of a part, one for each row.
pub(crate) fn part_values(alloc: Global, part: &Array) -> Result<PrimitiveBuffer, AllocError>
    requires { IsTrue (is_primitive_type (column_of part.now).dtype) }
    ensures numbers { IfOk result (λ b. numbers_of b ≡ part_numbers part.now) }
    ensures width { IfOk result (λ b. (column_of part.now).dtype ≡ dtypes.Primitive (ptype_of b) (nullability (column_of part.now).dtype)) }
{
    match part {
        Array::Primitive(plain) => {
            let values = plain.values().try_clone(alloc)?;
            Ok(values)
        }
        Array::Constant(constant) => {
            let number = number_in(constant.scalar());
            let values = equal_numbers(alloc, width_of(part), number, constant.len())?;
            Ok(values)
        }
        _ => unreachable!(),
    }
}

// A number of a width, so many times.
fn equal_numbers(
    alloc: Global,
    width: PType,
    number: i128,
    len: usize,
) -> Result<PrimitiveBuffer, AllocError>
    requires { IsTrue (in_width width number) }
    ensures numbers { IfOk result (λ b. numbers_of b ≡ replicate len number) }
    ensures width { IfOk result (λ b. ptype_of b ≡ width) }
{
    match width {
        PType::U8 => equal_buffer::<u8>(alloc, number, len),
        PType::U16 => equal_buffer::<u16>(alloc, number, len),
        PType::U32 => equal_buffer::<u32>(alloc, number, len),
        PType::U64 => equal_buffer::<u64>(alloc, number, len),
        PType::I8 => equal_buffer::<i8>(alloc, number, len),
        PType::I16 => equal_buffer::<i16>(alloc, number, len),
        PType::I32 => equal_buffer::<i32>(alloc, number, len),
        PType::I64 => equal_buffer::<i64>(alloc, number, len),
    }
}

// A number of a native type as a buffer of it, so many times.
fn equal_buffer<T: PrimitiveWidth>(
    alloc: Global,
    number: i128,
    len: usize,
) -> Result<PrimitiveBuffer, AllocError>
    requires { IsTrue (in_width T.width number) }
    ensures numbers { IfOk result (λ b. numbers_of b ≡ replicate len number) }
    ensures width { IfOk result (λ b. ptype_of b ≡ T.width) }
{
    let items = equal_items(alloc, number, len)?;
    Ok(T::into_buffer(items))
}

// A number of a native type, so many times.
pub(crate) fn equal_items<T: NativeValue>(
    alloc: Global,
    number: i128,
    len: usize,
) -> Result<Buffer<T>, AllocError>
    requires { IsTrue (in_width T.width number) }
    ensures { IfOk result (λ b. map T.number b ≡ replicate len number) }
{
    match T::from_value(number) {
        Some(item) => {
            let items = repeated(alloc, item, len)?;
            Ok(Buffer::from_vec(items))
        }
        None => unreachable!(),
    }
}

// An item, so many times.
fn repeated<T: Copy>(alloc: Global, item: T, len: usize) -> Result<Vec<T>, AllocError>
    ensures { IfOk result (λ items. items.items ≡ replicate len item) }
{
    let mut items = Vec::with_capacity(alloc, len)?;
    for _ in 0..len {
        items.push(item)?;
    }
    Ok(items)
}
