// Columns of equal rows, cast by their one row.
ghost use Rattle.std.specs.Prelude.{◌≡◌, IsTrue, IfOk, Some};
ghost use Rattle.vortex_array_types.specs.Row.{fits_type, value_fits};

use crate::cast::Cast;
use crate::errors::CastError;
use crate::refusals::{is_castable, refused_at, row_fits};
use std::alloc::{AllocError, Global};
use vortex_array_kinds::ConstantArray;
use vortex_array_types::{Bytes, DType, Scalar, Text, Value};

impl Cast for ConstantArray {
    fn cast(&self, alloc: Global, dtype: &DType) -> Result<ConstantArray, CastError> {
        if !is_castable(&self.dtype(), dtype) {
            return Err(CastError::Unsupported);
        }
        let row = self.scalar().value_ref();
        if !self.is_empty() && !row_fits(dtype, row) {
            return Err(refused_at(0, row.is_some()));
        }
        match row_of(alloc, self.scalar(), dtype) {
            Ok(scalar) => Ok(ConstantArray::new(scalar, self.len())),
            Err(_) => Err(CastError::OutOfMemory),
        }
    }
}

// The same row, of a type that it fits; else any row of the type.
fn row_of(alloc: Global, scalar: &Scalar, dtype: &DType) -> Result<Scalar, AllocError>
    ensures dtype { IfOk result (λ s. s.dtype ≡ dtype.now) }
    ensures same { IfOk result (λ s. IsTrue (fits_type dtype.now scalar.now.value) → s.value ≡ scalar.now.value) }
{
    if !row_fits(dtype, scalar.value_ref()) {
        return Ok(typed(*dtype, Some(any_value(alloc, dtype)?)));
    }
    match scalar.value() {
        None => Ok(typed(*dtype, None)),
        Some(value) => Ok(typed(*dtype, Some(value.try_clone(alloc)?))),
    }
}

// A row of a type that it fits.
fn typed(dtype: DType, row: Option<Value>) -> Scalar
    requires { IsTrue (fits_type dtype row) }
    ensures { result ≡ record { dtype = dtype; value = row } }
{
    match Scalar::try_new(dtype, row) {
        Ok(scalar) => scalar,
        Err(_) => unreachable!(),
    }
}

// A value of the type: false, 0, or without bytes.
fn any_value(alloc: Global, dtype: &DType) -> Result<Value, AllocError>
    ensures { IfOk result (λ v. IsTrue (value_fits dtype.now v)) }
{
    match dtype {
        DType::Bool(_) => Ok(Value::Bool(false)),
        DType::Primitive(_, _) => Ok(Value::Int(0)),
        DType::Decimal(_, _) => Ok(Value::Decimal(0)),
        DType::Utf8(_) => match Text::from_str(alloc, "") {
            Ok(text) => Ok(Value::Utf8(text)),
            Err(error) => Err(error),
        },
        DType::Binary(_) => match Bytes::from_slice(alloc, &[]) {
            Ok(bytes) => Ok(Value::Binary(bytes)),
            Err(error) => Err(error),
        },
    }
}
