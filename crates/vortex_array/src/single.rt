// One row as a plain array.
ghost use Rattle.std.specs.Prelude.{◌≡◌, ◌∷◌, [], IfOk, IsTrue, IsUtf8, List, ℕ, Some, map, option_copied, option_map};
ghost use Rattle.vortex_array_types.specs.Row.{fits_type, in_width};
ghost use Rattle.vortex_array_types.specs.Seen.{value_seen};
ghost use Rattle.vortex_array_types.specs.declared.types.DType.TheVariants as dtypes;
ghost use Rattle.vortex_array_types.specs.declared.scalar.Value.TheVariants as values;
ghost use Rattle.vortex_array_kinds.specs.StringValues.{is_string_type};
ghost use Rattle.vortex_array_kinds.specs.Kinds.{bool_column, decimal_column, numbers_of, primitive_column, ptype_of, unscaled_of};
ghost use Rattle.vortex_array.specs.ColumnOf.{column_of, is_plain as is_plain_array};
ghost use Rattle.vortex_array.specs.Single.{bytes_held, number_held, truth_held, unscaled_held, validity_held};

use crate::arrays::Array;
use std::alloc::{AllocError, Global};
use vortex_array_kinds::{
    DecimalBuffer, Decimals, PlainArray, PrimitiveBuffer, PrimitiveWidth, PushError, Validity,
    VarBinViewBuilder,
};
use vortex_array_types::{DType, DecimalDType, Nullability, PType, Scalar, ValueRef};
use vortex_buffer::{BitBuffer, Buffer};
use vortex_compute::collect_bits;

// A plain array of this one row.
pub(crate) fn one_row(alloc: Global, scalar: &Scalar) -> Result<Array, AllocError>
    ensures column { IfOk result (λ a. column_of a ≡ record { dtype = scalar.now.dtype; rows = scalar.now.value ∷ [] }) }
    ensures plain { IfOk result (λ a. IsTrue (is_plain_array a)) }
{
    let row = scalar.value_ref();
    match scalar.dtype() {
        DType::Bool(nullability) => one_truth(alloc, nullability, row),
        DType::Primitive(width, nullability) => one_number(alloc, width, nullability, row),
        DType::Decimal(digits, nullability) => one_decimal(alloc, digits, nullability, row),
        DType::Utf8(_) => one_text(alloc, scalar.dtype(), row),
        DType::Binary(_) => one_text(alloc, scalar.dtype(), row),
    }
}

// The validity of one row.
fn validity_of(nullability: Nullability, is_present: bool) -> Validity
    ensures { result ≡ validity_held nullability is_present }
{
    match nullability {
        Nullability::NonNullable => Validity::NonNullable,
        Nullability::Nullable => {
            if is_present {
                Validity::AllValid
            } else {
                Validity::AllInvalid
            }
        }
    }
}

// One truth value or null.
fn one_truth(
    alloc: Global,
    nullability: Nullability,
    row: Option<ValueRef<'_>>,
) -> Result<Array, AllocError>
    requires { IsTrue (fits_type (dtypes.Bool nullability) (option_map value_seen row)) }
    ensures column { IfOk result (λ a. column_of a ≡ record { dtype = dtypes.Bool nullability; rows = option_map value_seen row.entry ∷ [] }) }
    ensures plain { IfOk result (λ a. IsTrue (is_plain_array a)) }
{
    let bits = one_bit(alloc, truth_in(row))?;
    let validity = validity_of(nullability, row.is_some());
    Ok(Array::Bool(PlainArray::new(bits, validity)))
}

// The truth value of a row.
fn truth_in(row: Option<ValueRef<'_>>) -> bool
    ensures { result ≡ truth_held (option_map value_seen row.entry) }
{
    match row {
        Some(ValueRef::Bool(truth)) => truth,
        _ => false,
    }
}

// One bit.
fn one_bit(alloc: Global, bit: bool) -> Result<BitBuffer, AllocError>
    ensures { IfOk result (λ bits. bits ≡ bit ∷ []) }
{
    let bits = collect_bits(alloc, [bit].as_slice(), |bit: bool| bit)?;
    Ok(bits)
}

// One whole number or null.
fn one_number(
    alloc: Global,
    width: PType,
    nullability: Nullability,
    row: Option<ValueRef<'_>>,
) -> Result<Array, AllocError>
    requires { IsTrue (fits_type (dtypes.Primitive width nullability) (option_map value_seen row)) }
    ensures column { IfOk result (λ a. column_of a ≡ record { dtype = dtypes.Primitive width nullability; rows = option_map value_seen row.entry ∷ [] }) }
    ensures plain { IfOk result (λ a. IsTrue (is_plain_array a)) }
{
    let values = numbers_of_one(alloc, width, number_in(row))?;
    let validity = validity_of(nullability, row.is_some());
    Ok(Array::Primitive(PlainArray::new(values, validity)))
}

// The whole number of a row.
fn number_in(row: Option<ValueRef<'_>>) -> i128
    ensures { result ≡ number_held (option_map value_seen row.entry) }
{
    match row {
        Some(ValueRef::Int(number)) => number,
        _ => 0,
    }
}

// A buffer of one number of a width.
fn numbers_of_one(alloc: Global, width: PType, number: i128) -> Result<PrimitiveBuffer, AllocError>
    requires { IsTrue (in_width width number) }
    ensures numbers { IfOk result (λ b. numbers_of b ≡ number ∷ []) }
    ensures width { IfOk result (λ b. ptype_of b ≡ width) }
{
    match width {
        PType::U8 => buffer_of_one::<u8>(alloc, number),
        PType::U16 => buffer_of_one::<u16>(alloc, number),
        PType::U32 => buffer_of_one::<u32>(alloc, number),
        PType::U64 => buffer_of_one::<u64>(alloc, number),
        PType::I8 => buffer_of_one::<i8>(alloc, number),
        PType::I16 => buffer_of_one::<i16>(alloc, number),
        PType::I32 => buffer_of_one::<i32>(alloc, number),
        PType::I64 => buffer_of_one::<i64>(alloc, number),
    }
}

// A buffer of one number of a native type.
fn buffer_of_one<T: PrimitiveWidth>(
    alloc: Global,
    number: i128,
) -> Result<PrimitiveBuffer, AllocError>
    requires { IsTrue (in_width T.width number) }
    ensures numbers { IfOk result (λ b. numbers_of b ≡ number ∷ []) }
    ensures width { IfOk result (λ b. ptype_of b ≡ T.width) }
{
    match T::from_value(number) {
        Some(item) => one_item(alloc, item).map(T::into_buffer),
        None => unreachable!(),
    }
}

// One item.
fn one_item<T: Copy>(alloc: Global, item: T) -> Result<Buffer<T>, AllocError>
    ensures { IfOk result (λ b. b ≡ item ∷ []) }
{
    let mut items = Vec::with_capacity(alloc, 1)?;
    items.push(item)?;
    Ok(Buffer::from_vec(items))
}

// One decimal or null.
fn one_decimal(
    alloc: Global,
    digits: DecimalDType,
    nullability: Nullability,
    row: Option<ValueRef<'_>>,
) -> Result<Array, AllocError>
    requires { IsTrue (fits_type (dtypes.Decimal digits nullability) (option_map value_seen row)) }
    ensures column { IfOk result (λ a. column_of a ≡ record { dtype = dtypes.Decimal digits nullability; rows = option_map value_seen row.entry ∷ [] }) }
    ensures plain { IfOk result (λ a. IsTrue (is_plain_array a)) }
{
    let numbers = unscaled_of_one(alloc, unscaled_in(row))?;
    let validity = validity_of(nullability, row.is_some());
    Ok(Array::Decimal(PlainArray::new(Decimals { numbers, digits }, validity)))
}

// The unscaled number of a row.
fn unscaled_in(row: Option<ValueRef<'_>>) -> i128
    ensures { result ≡ unscaled_held (option_map value_seen row.entry) }
{
    match row {
        Some(ValueRef::Decimal(number)) => number,
        _ => 0,
    }
}

// A buffer of one unscaled number.
fn unscaled_of_one(alloc: Global, number: i128) -> Result<DecimalBuffer, AllocError>
    ensures { IfOk result (λ b. unscaled_of b ≡ number ∷ []) }
{
    let items = one_item(alloc, number)?;
    Ok(DecimalBuffer::I128(items))
}

// One text, one row of bytes, or null.
fn one_text(alloc: Global, dtype: DType, row: Option<ValueRef<'_>>) -> Result<Array, AllocError>
    requires kind { IsTrue (is_string_type dtype) }
    requires fits { IsTrue (fits_type dtype (option_map value_seen row)) }
    ensures column { IfOk result (λ a. column_of a ≡ record { dtype = dtype; rows = option_map value_seen row.entry ∷ [] }) }
    ensures plain { IfOk result (λ a. IsTrue (is_plain_array a)) }
{
    let mut builder = VarBinViewBuilder::new(alloc, dtype);
    match builder.push(bytes_in(row)) {
        Ok(()) => Ok(Array::VarBinView(builder.finish())),
        Err(PushError::OutOfMemory) => Err(AllocError),
        Err(_) => unreachable!(),
    }
}

// The bytes of a row, of which those of a text are UTF-8.
fn bytes_in<'a>(row: Option<ValueRef<'a>>) -> Option<&'a [u8]>
    ensures bytes { option_copied result ≡ bytes_held (option_map value_seen row.entry) }
    ensures text { (text : List ℕ) → option_map value_seen row.entry ≡ Some (values.Utf8 text) → IsUtf8 text }
{
    match row {
        Some(ValueRef::Utf8(text)) => Some(text.as_bytes()),
        Some(ValueRef::Binary(bytes)) => Some(bytes),
        _ => None,
    }
}
