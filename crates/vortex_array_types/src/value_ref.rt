// Values that are lent.
ghost use Rattle.std.specs.Prelude.{◌≡◌, IfOk, IsTrue, option_map};
ghost use Rattle.vortex_array_types.specs.Row.{fits_type};
ghost use Rattle.vortex_array_types.specs.Seen.{value_seen};

use crate::names::{Bytes, Text};
use crate::scalar::{Scalar, Value};
use std::alloc::{AllocError, Global};

/// A value that is lent from where it is kept. A decimal's is its unscaled number.
#[derive(Clone, Copy)]
pub enum ValueRef<'a> {
    /// A truth value.
    Bool(bool),
    /// A whole number.
    Int(i128),
    /// A decimal's unscaled number.
    Decimal(i128),
    /// A text.
    Utf8(&'a str),
    /// Bytes.
    Binary(&'a [u8]),
}

impl Value {
    /// The value, lent.
    #[inline]
    pub fn as_value_ref(&self) -> ValueRef<'_>
        ensures { value_seen result ≡ self.now }
    {
        match self {
            Value::Bool(b) => ValueRef::Bool(*b),
            Value::Int(n) => ValueRef::Int(*n),
            Value::Decimal(n) => ValueRef::Decimal(*n),
            Value::Utf8(text) => ValueRef::Utf8(text.as_str()),
            Value::Binary(bytes) => ValueRef::Binary(bytes.as_slice()),
        }
    }
}

impl Scalar {
    /// The value, lent, or none where it is null.
    #[inline]
    pub fn value_ref(&self) -> Option<ValueRef<'_>>
        ensures value { option_map value_seen result ≡ self.now.value }
        ensures fits { IsTrue (fits_type self.now.dtype self.now.value) }
    {
        match self.value() {
            Some(value) => Some(value.as_value_ref()),
            None => None,
        }
    }
}

impl ValueRef<'_> {
    /// The value, with a copy of its text or bytes.
    pub fn to_value(self, alloc: Global) -> Result<Value, AllocError>
        ensures { IfOk result (λ v. v ≡ value_seen self.entry) }
    {
        match self {
            ValueRef::Bool(b) => Ok(Value::Bool(b)),
            ValueRef::Int(n) => Ok(Value::Int(n)),
            ValueRef::Decimal(n) => Ok(Value::Decimal(n)),
            ValueRef::Utf8(text) => Ok(Value::Utf8(Text::from_str(alloc, text)?)),
            ValueRef::Binary(bytes) => Ok(Value::Binary(Bytes::from_slice(alloc, bytes)?)),
        }
    }
}
