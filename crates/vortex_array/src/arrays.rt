// Columns of any kind.
ghost use Rattle.std.specs.Prelude.{◌≡◌, ◌<◌, ◌==◌, IsTrue, IfOk, None, is_some, length, map, option_map, slice_index_or};
ghost use Rattle.vortex_buffer.specs.Mask.{mask_bits};
ghost use Rattle.vortex_array_types.specs.Row.{fits_type};
ghost use Rattle.vortex_array_types.specs.Seen.{value_seen};
ghost use Rattle.vortex_array.specs.ColumnOf.{column_of, is_plain as is_plain_array, nullable_column};

use std::alloc::{AllocError, Global};
use vortex_array_kinds::{BoolArray, ConstantArray, DecimalArray, PrimitiveArray, VarBinViewArray};
use vortex_array_types::{DType, Scalar, Value, ValueRef};
use vortex_buffer::Mask;

/// A column of any kind.
pub enum Array {
    /// Truth values.
    Bool(BoolArray),
    /// Whole numbers.
    Primitive(PrimitiveArray),
    /// Decimals.
    Decimal(DecimalArray),
    /// Texts or bytes.
    VarBinView(VarBinViewArray),
    /// Equal rows.
    Constant(ConstantArray),
}

impl Drop for Array {
    fn drop(self) {
        match self {
            Array::Bool(_array) => {}
            Array::Primitive(_array) => {}
            Array::Decimal(_array) => {}
            Array::VarBinView(_array) => {}
            Array::Constant(_array) => {}
        }
    }
}

// What the expression is for the array, whatever its kind.
macro_rules! each_kind {
    ($array:expr, $kind:ident => $answer:expr) => {
        match $array {
            Array::Bool($kind) => $answer,
            Array::Primitive($kind) => $answer,
            Array::Decimal($kind) => $answer,
            Array::VarBinView($kind) => $answer,
            Array::Constant($kind) => $answer,
        }
    };
}

// The same, where the expression makes a part or a copy of the array's kind, or a refusal.
macro_rules! same_kind {
    ($array:expr, $kind:ident => $made:expr) => {
        match $array {
            Array::Bool($kind) => $made.map(Array::Bool),
            Array::Primitive($kind) => $made.map(Array::Primitive),
            Array::Decimal($kind) => $made.map(Array::Decimal),
            Array::VarBinView($kind) => $made.map(Array::VarBinView),
            Array::Constant($kind) => $made.map(Array::Constant),
        }
    };
}

// The same of an array that is plain.
macro_rules! plain_kind {
    ($array:expr, $kind:ident => $made:expr) => {
        match $array {
            Array::Bool($kind) => match $made {
                Ok(made) => Ok(Array::Bool(made)),
                Err(error) => Err(error),
            },
            Array::Primitive($kind) => match $made {
                Ok(made) => Ok(Array::Primitive(made)),
                Err(error) => Err(error),
            },
            Array::Decimal($kind) => match $made {
                Ok(made) => Ok(Array::Decimal(made)),
                Err(error) => Err(error),
            },
            Array::VarBinView($kind) => match $made {
                Ok(made) => Ok(Array::VarBinView(made)),
                Err(error) => Err(error),
            },
            Array::Constant(_) => unreachable!(),
        }
    };
}

// What the expression is for the array of one kind, where it is of none of the others.
macro_rules! only_kind {
    ($array:expr, $kind:ident => $answer:expr, $only:ident, [$($other:ident),+]) => {
        match $array {
            Array::$only($kind) => $answer,
            $(Array::$other(_) => unreachable!(),)+
        }
    };
}

pub(crate) use each_kind;
pub(crate) use only_kind;
pub(crate) use plain_kind;
pub(crate) use same_kind;

// A lent value or null as one of its own.
fn owned(alloc: Global, value: Option<ValueRef<'_>>) -> Result<Option<Value>, AllocError>
    ensures { IfOk result (λ v. v ≡ option_map value_seen value.entry) }
{
    match value {
        Some(value) => Ok(Some(value.to_value(alloc)?)),
        None => Ok(None),
    }
}

impl Array {
    /// How many rows there are.
    pub fn len(&self) -> usize
        ensures { result ≡ length (column_of self.now).rows }
    {
        each_kind!(self, array => array.len())
    }

    /// Whether there is no row.
    pub fn is_empty(&self) -> bool
        ensures { result ≡ (length (column_of self.now).rows == 0) }
    {
        self.len() == 0
    }

    /// The type.
    pub fn dtype(&self) -> DType
        ensures { result ≡ (column_of self.now).dtype }
    {
        each_kind!(self, array => array.dtype())
    }

    /// The row at a place, or none where it is null. It fits the type.
    pub fn value_at(&self, i: usize) -> Option<ValueRef<'_>>
        requires { i < length (column_of self.now).rows }
        ensures value { option_map value_seen result ≡ slice_index_or (column_of self.now).rows i None }
        ensures fits { IsTrue (fits_type (column_of self.now).dtype (option_map value_seen result)) }
    {
        each_kind!(self, array => array.value_at(i))
    }

    /// Whether the row at a place is not null.
    pub fn is_valid(&self, i: usize) -> bool
        requires { i < length (column_of self.now).rows }
        ensures { result ≡ is_some (slice_index_or (column_of self.now).rows i None) }
    {
        self.value_at(i).is_some()
    }

    /// The row at a place, with the type.
    pub fn scalar_at(&self, alloc: Global, i: usize) -> Result<Scalar, AllocError>
        requires { i < length (column_of self.now).rows }
        ensures { IfOk result (λ s. s ≡ record { dtype = (column_of self.now).dtype; value = slice_index_or (column_of self.now).rows i None }) }
    {
        let value = owned(alloc, self.value_at(i))?;
        match Scalar::try_new(self.dtype(), value) {
            Ok(scalar) => Ok(scalar),
            Err(_) => unreachable!(),
        }
    }

    /// For each row whether it is not null.
    pub fn validity_mask(&self, alloc: Global) -> Result<Mask, AllocError>
        ensures { IfOk result (λ mask. mask_bits mask ≡ map is_some (column_of self.now).rows) }
    {
        match self {
            Array::Bool(array) => array.validity_mask(alloc),
            Array::Primitive(array) => array.validity_mask(alloc),
            Array::Decimal(array) => array.validity_mask(alloc),
            Array::VarBinView(array) => array.validity_mask(alloc),
            Array::Constant(array) => Ok(array.validity_mask()),
        }
    }

    /// The same rows, of the type with nulls. A plain array stays one. It takes no memory.
    pub fn into_nullable(self) -> Array
        ensures column { column_of result ≡ nullable_column (column_of self) }
        ensures plain { is_plain_array result ≡ is_plain_array self }
    {
        match self {
            Array::Bool(array) => Array::Bool(array.into_nullable()),
            Array::Primitive(array) => Array::Primitive(array.into_nullable()),
            Array::Decimal(array) => Array::Decimal(array.into_nullable()),
            Array::VarBinView(array) => Array::VarBinView(array.into_nullable()),
            Array::Constant(array) => Array::Constant(array.into_nullable()),
        }
    }

    /// A second column of the same type and rows, of the same kind.
    pub fn try_clone(&self, alloc: Global) -> Result<Array, AllocError>
        ensures { IfOk result (λ a. a ≡ self.now) }
    {
        same_kind!(self, array => array.try_clone(alloc))
    }
}
