// Equal rows as plain arrays.
ghost use Rattle.std.specs.Prelude.{◌≡◌, IfOk, IsFalse, IsTrue, None, is_some};
ghost use Rattle.vortex_array_types.specs.Row.{is_nullable, value_fits};
ghost use Rattle.vortex_array_types.specs.declared.types.DType.TheVariants as dtypes;
ghost use Rattle.vortex_array_types.specs.declared.types.Nullability.TheVariants.{Nullable};
ghost use Rattle.vortex_array_types.specs.declared.types.PType.TheVariants as widths;
ghost use Rattle.vortex_array_kinds.specs.Kinds.{constant_column};
ghost use Rattle.vortex_array.specs.ColumnOf.{column_of, is_plain as is_plain_array};

use std::alloc::{AllocError, Global};
use vortex_array::{Array, Bytes, ConstantArray, DType, Nullability, PType, Scalar, Text, Value};

/// A plain array of the same type and rows.
pub fn plain_form(alloc: Global, array: Array) -> Result<Array, AllocError>
    ensures column { IfOk result (λ a. column_of a ≡ column_of array) }
    ensures plain { IfOk result (λ a. IsTrue (is_plain_array a)) }
{
    if is_plain(&array) {
        return Ok(array);
    }
    plain_rows(alloc, &array)
}

// A plain array of equal type and rows; the first stays.
pub(crate) fn plain_copy(alloc: Global, array: &Array) -> Result<Array, AllocError>
    ensures column { IfOk result (λ a. column_of a ≡ column_of array.now) }
    ensures plain { IfOk result (λ a. IsTrue (is_plain_array a)) }
{
    let copy = array.try_clone(alloc)?;
    let plain = plain_form(alloc, copy)?;
    Ok(plain)
}

// Whether the array keeps each row by itself.
fn is_plain(array: &Array) -> bool
    ensures { result ≡ is_plain_array array.now }
{
    match array {
        Array::Constant(_) => false,
        _ => true,
    }
}

// Equal rows as a plain array.
fn plain_rows(alloc: Global, array: &Array) -> Result<Array, AllocError>
    requires { IsFalse (is_plain_array array.now) }
    ensures column { IfOk result (λ a. column_of a ≡ column_of array.now) }
    ensures plain { IfOk result (λ a. IsTrue (is_plain_array a)) }
{
    match array {
        Array::Constant(row) => repeat_row(alloc, array, row),
        _ => unreachable!(),
    }
}

// Equal rows as a plain array: values are filled, which changes none of them.
fn repeat_row(alloc: Global, array: &Array, row: &ConstantArray) -> Result<Array, AllocError>
    requires { column_of array.now ≡ constant_column row.now }
    ensures column { IfOk result (λ a. column_of a ≡ constant_column row.now) }
    ensures plain { IfOk result (λ a. IsTrue (is_plain_array a)) }
{
    match row.scalar().value_ref() {
        Some(_) => {
            let rows = array.fill_null(alloc, row.scalar())?;
            Ok(rows)
        }
        None => null_rows(alloc, row),
    }
}

// So many nulls of a type as a plain array: they are taken at indices that are null, of an array without rows.
fn null_rows(alloc: Global, row: &ConstantArray) -> Result<Array, AllocError>
    requires nullable { IsTrue (is_nullable row.now.scalar.dtype) }
    requires null { None ≡ row.now.scalar.value }
    ensures column { IfOk result (λ a. column_of a ≡ constant_column row.now) }
    ensures plain { IfOk result (λ a. IsTrue (is_plain_array a)) }
{
    let none = no_rows(alloc, row)?;
    let nulls = equal_rows(null_index(), row.len());
    let rows = none.take(alloc, &nulls)?;
    Ok(rows)
}

// A plain array of the type, without rows.
fn no_rows(alloc: Global, row: &ConstantArray) -> Result<Array, AllocError>
    ensures dtype { IfOk result (λ a. (column_of a).dtype ≡ row.now.scalar.dtype) }
    ensures plain { IfOk result (λ a. IsTrue (is_plain_array a)) }
{
    let fill = some_scalar(alloc, row)?;
    let none = equal_rows(fill.try_clone(alloc)?, 0);
    let plain = none.fill_null(alloc, &fill)?;
    Ok(plain)
}

// So many rows that are equal to this one.
fn equal_rows(scalar: Scalar, len: usize) -> Array
    ensures { column_of result ≡ constant_column (record { scalar = scalar; len = len }) }
{
    Array::Constant(ConstantArray::new(scalar, len))
}

// An index that is null.
fn null_index() -> Scalar
    ensures { result ≡ record { dtype = dtypes.Primitive widths.U64 Nullable; value = None } }
{
    match Scalar::try_new(DType::Primitive(PType::U64, Nullability::Nullable), None) {
        Ok(scalar) => scalar,
        Err(_) => unreachable!(),
    }
}

// A value of the type of equal rows.
fn some_scalar(alloc: Global, row: &ConstantArray) -> Result<Scalar, AllocError>
    ensures dtype { IfOk result (λ s. s.dtype ≡ row.now.scalar.dtype) }
    ensures value { IfOk result (λ s. IsTrue (is_some s.value)) }
{
    let value = some_value(alloc, row.dtype())?;
    match Scalar::try_new(row.dtype(), Some(value)) {
        Ok(scalar) => Ok(scalar),
        Err(_) => unreachable!(),
    }
}

// A value that fits a type.
fn some_value(alloc: Global, dtype: DType) -> Result<Value, AllocError>
    ensures { IfOk result (λ v. IsTrue (value_fits dtype v)) }
{
    match dtype {
        DType::Bool(_) => Ok(Value::Bool(false)),
        DType::Primitive(_, _) => Ok(Value::Int(0)),
        DType::Decimal(_, _) => Ok(Value::Decimal(0)),
        DType::Utf8(_) => Ok(Value::Utf8(Text::from_str(alloc, "")?)),
        DType::Binary(_) => Ok(Value::Binary(Bytes::from_slice(alloc, &[])?)),
    }
}
