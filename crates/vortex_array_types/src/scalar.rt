// Values, and values of a type.
ghost use Rattle.std.specs.Prelude.{◌≡◌, ◌↔◌, IsTrue, IsFalse, IfOk, OnErr, None, option_copied};
ghost use Rattle.vortex_array_types.specs.Row.{fits_type, value_fits};
ghost use Rattle.vortex_array_types.specs.Widths.{nullable_form};

use crate::names::{Bytes, Text};
use crate::types::DType;
use std::alloc::{AllocError, Global};
use std::marker::Model;
use thiserror::Error;

/// A value. A decimal's is its unscaled number.
#[derive(PartialEq, Eq)]
pub enum Value {
    Bool(bool),
    Int(i128),
    Decimal(i128),
    Utf8(Text),
    Binary(Bytes),
}

impl Drop for Value {
    fn drop(self) {
        match self {
            Value::Bool(_part) => {}
            Value::Int(_part) => {}
            Value::Decimal(_part) => {}
            Value::Utf8(_part) => {}
            Value::Binary(_part) => {}
        }
    }
}

impl Value {
    /// A second value that is equal.
    pub fn try_clone(&self, alloc: Global) -> Result<Value, AllocError>
        ensures { IfOk result (λ v. v ≡ self.now) }
    {
        match self {
            Value::Bool(b) => Ok(Value::Bool(*b)),
            Value::Int(n) => Ok(Value::Int(*n)),
            Value::Decimal(n) => Ok(Value::Decimal(*n)),
            Value::Utf8(t) => Ok(Value::Utf8(t.try_clone(alloc)?)),
            Value::Binary(b) => Ok(Value::Binary(b.try_clone(alloc)?)),
        }
    }
}

/// The value does not fit the type.
#[derive(Clone, Copy, Debug, PartialEq, Eq, Error)]
#[error("the value does not fit the type")]
pub struct WrongType;

/// A value or null, of a type that it fits. Contracts see its type and value.
pub struct Scalar {
    dtype: DType,
    value: Option<Value>,
}

impl Drop for Scalar {
    fn drop(self) {
        let Scalar {
            dtype: _dtype,
            value: _value,
        } = self;
    }
}

impl Model for Scalar {
    ghost use Rattle.std.specs.Prelude.{IsTrue};
    ghost use Rattle.vortex_array_types.specs.Row.{fits_type, TypedRow};

    ghost Value = { TypedRow };

    ghost view = { λ s. record { dtype = s.dtype; value = s.value } };

    ghost invariant = { λ s. IsTrue (fits_type s.dtype s.value) };
}

impl Scalar {
    /// A scalar of this type. It is refused exactly where the value's kind differs, a whole number is
    /// outside its width, or null meets a type without nulls.
    pub fn try_new(dtype: DType, value: Option<Value>) -> Result<Scalar, WrongType>
        ensures ok { IfOk result (λ s. s ≡ record { dtype = dtype; value = value }) }
        ensures fits { IfOk result (λ _. IsTrue (fits_type dtype value)) }
        ensures err { OnErr result (IsFalse (fits_type dtype value)) }
    {
        if !dtype.admits(&value) {
            return Err(WrongType);
        }
        Ok(Scalar { dtype, value })
    }

    /// The type.
    pub fn dtype(&self) -> DType
        ensures { result ≡ self.now.dtype }
    {
        self.dtype
    }

    /// The value, or none where it is null.
    pub fn value(&self) -> Option<&Value>
        ensures value { option_copied result ≡ self.now.value }
        ensures fits { IsTrue (fits_type self.now.dtype self.now.value) }
    {
        self.value.as_ref()
    }

    /// Whether it is null.
    pub fn is_null(&self) -> bool
        ensures { IsTrue result ↔ (self.now.value ≡ None) }
    {
        self.value.is_none()
    }

    /// The same value, of the type with nulls.
    pub fn into_nullable(self) -> Scalar
        ensures { result ≡ record { dtype = nullable_form self.dtype; value = self.value } }
    {
        let Scalar { dtype, value } = self;
        Scalar {
            dtype: dtype.into_nullable(),
            value,
        }
    }

    /// A second scalar of the same type and value.
    pub fn try_clone(&self, alloc: Global) -> Result<Scalar, AllocError>
        ensures { IfOk result (λ s. s ≡ self.now) }
    {
        let value = copy_of(alloc, &self.value)?;
        Ok(Scalar {
            dtype: self.dtype,
            value,
        })
    }
}

// A second value or null.
fn copy_of(alloc: Global, value: &Option<Value>) -> Result<Option<Value>, AllocError>
    ensures { IfOk result (λ v. v ≡ value.now) }
{
    match value {
        Some(value) => Ok(Some(value.try_clone(alloc)?)),
        None => Ok(None),
    }
}
