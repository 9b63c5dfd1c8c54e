// Arrays of each form as plain ones.
ghost use Rattle.std.specs.Prelude.{◌≡◌, ◌∷◌, [], IfOk, IsFalse, IsTrue, Some, length, option_to_list, pos};
ghost use Rattle.vortex_array_types.specs.declared.scalar.Value.TheVariants as values;
ghost use Rattle.vortex_array_types.specs.declared.types.DType.TheVariants as dtypes;
ghost use Rattle.vortex_array_types.specs.declared.types.Nullability.TheVariants.{NonNullable};
ghost use Rattle.vortex_array_types.specs.declared.types.PType.TheVariants as widths;
ghost use Rattle.vortex_array_kinds.specs.Kinds.{constant_column};
ghost use Rattle.vortex_array.specs.ColumnOf.{column_of, is_plain as is_plain_array};
ghost use Rattle.vortex_decimal_byte_parts.specs.Columns.{parts_column};

use std::alloc::{AllocError, Global};
use vortex_array::{Array, ConstantArray, DType, Nullability, PType, Scalar, Value};
use vortex_decimal_byte_parts::{DecimalByteParts, assemble_decimal};
use vortex_dict::DictArray;

/// A plain array of the same type and rows.
pub(crate) fn plain_form(alloc: Global, array: Array) -> Result<Array, AllocError>
    ensures column { IfOk result (λ a. column_of a ≡ column_of array) }
    ensures plain { IfOk result (λ a. IsTrue (is_plain_array a)) }
{
    if is_plain(&array) {
        return Ok(array);
    }
    plain_rows(alloc, &array)
}

// Whether the array keeps each row by itself.
fn is_plain(array: &Array) -> bool
    ensures { result ≡ is_plain_array array.now }
{
    match array {
        Array::Constant(_) => false,
        _ => true,
    }
}

// Equal rows as a plain array.
fn plain_rows(alloc: Global, array: &Array) -> Result<Array, AllocError>
    requires { IsFalse (is_plain_array array.now) }
    ensures column { IfOk result (λ a. column_of a ≡ column_of array.now) }
    ensures plain { IfOk result (λ a. IsTrue (is_plain_array a)) }
{
    match array {
        Array::Constant(row) => repeated_row(alloc, row),
        _ => unreachable!(),
    }
}

// The same: a dictionary of equal rows in which each code is 0, decoded.
fn repeated_row(alloc: Global, row: &ConstantArray) -> Result<Array, AllocError>
    ensures column { IfOk result (λ a. column_of a ≡ constant_column row.now) }
    ensures plain { IfOk result (λ a. IsTrue (is_plain_array a)) }
{
    let values = Array::Constant(row.try_clone(alloc)?);
    let codes = Array::Constant(ConstantArray::new(first_place(), row.len()));
    let dict = DictArray::new(codes, values);
    let rows = dict.canonicalize(alloc)?;
    Ok(rows)
}

// The place of a first row.
fn first_place() -> Scalar
    ensures { result ≡ record { dtype = dtypes.Primitive widths.U64 NonNullable; value = Some (values.Int (pos 0)) } }
{
    let dtype = DType::Primitive(PType::U64, Nullability::NonNullable);
    match Scalar::try_new(dtype, Some(Value::Int(0))) {
        Ok(scalar) => scalar,
        Err(_) => unreachable!(),
    }
}

/// Decimals in parts, put together.
pub(crate) fn assembled(alloc: Global, parts: &DecimalByteParts) -> Result<Array, AllocError>
    ensures column { IfOk result (λ a. column_of a ≡ parts_column parts.now) }
    ensures plain { IfOk result (λ a. IsTrue (is_plain_array a)) }
{
    match parts.lower_part() {
        None => assembled_of(alloc, parts, Vec::new(alloc)),
        Some(lower) => {
            let mut lower_parts = Vec::new(alloc);
            lower_parts.push(lower.try_clone(alloc)?)?;
            assembled_of(alloc, parts, lower_parts)
        }
    }
}

// The same, the lower part being a list of one, or of none.
fn assembled_of(
    alloc: Global,
    parts: &DecimalByteParts,
    lower_parts: Vec<Array>,
) -> Result<Array, AllocError>
    requires { lower_parts.items ≡ option_to_list parts.now.lower }
    ensures column { IfOk result (λ a. column_of a ≡ parts_column parts.now) }
    ensures plain { IfOk result (λ a. IsTrue (is_plain_array a)) }
{
    let digits = parts.decimal_dtype();
    match assemble_decimal(alloc, parts.msp(), lower_parts.as_slice(), digits) {
        Ok(decimals) => Ok(Array::Decimal(decimals)),
        Err(_) => Err(AllocError),
    }
}
