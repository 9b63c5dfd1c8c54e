// Columns of equal rows.
ghost use Rattle.std.specs.Prelude.{◌≡◌, ◌<◌, ◌==◌, IsTrue, IfOk, None, is_some, length, map, option_map, slice_index_or};
ghost use Rattle.vortex_buffer.specs.Mask.{mask_bits};
ghost use Rattle.vortex_array_types.specs.Row.{fits_type};
ghost use Rattle.vortex_array_types.specs.Seen.{value_seen};
ghost use Rattle.vortex_array_kinds.specs.Kinds.{constant_column, nullable_column};

use crate::values::Kind;
use std::alloc::{AllocError, Global};
use std::marker::Model;
use vortex_array_types::{DType, Scalar, ValueRef};
use vortex_buffer::Mask;

/// A column of equal rows, which is kept by one of them.
pub struct ConstantArray {
    scalar: Scalar,
    len: usize,
}

impl Drop for ConstantArray {
    fn drop(self) {
        let ConstantArray {
            scalar: _scalar,
            len: _len,
        } = self;
    }
}

impl Model for ConstantArray {
    ghost use Rattle.vortex_array_kinds.specs.Parts.{ConstantParts};

    ghost Value = { ConstantParts };

    ghost view = { λ a. record { scalar = a.scalar; len = a.len } };
}

impl ConstantArray {
    /// So many rows that are equal to this one.
    pub fn new(scalar: Scalar, len: usize) -> ConstantArray
        ensures { result ≡ record { scalar = scalar; len = len } }
    {
        ConstantArray { scalar, len }
    }

    /// The row that each row is.
    pub fn scalar(&self) -> &Scalar
        ensures { result.now ≡ self.now.scalar }
    {
        &self.scalar
    }

    /// How many rows there are.
    pub fn len(&self) -> usize
        ensures rows { result ≡ length (constant_column self.now).rows }
        ensures count { result ≡ self.now.len }
    {
        self.len
    }

    /// Whether there is no row.
    pub fn is_empty(&self) -> bool
        ensures { result ≡ (length (constant_column self.now).rows == 0) }
    {
        self.len() == 0
    }

    /// The type.
    pub fn dtype(&self) -> DType
        ensures { result ≡ (constant_column self.now).dtype }
    {
        self.scalar.dtype()
    }

    /// The row at a place, or none where it is null.
    pub fn value_at(&self, i: usize) -> Option<ValueRef<'_>>
        requires { i < length (constant_column self.now).rows }
        ensures value { option_map value_seen result ≡ slice_index_or (constant_column self.now).rows i None }
        ensures fits { IsTrue (fits_type (constant_column self.now).dtype (option_map value_seen result)) }
    {
        let _ = i;
        self.scalar.value_ref()
    }

    /// For each row whether it is not null.
    pub fn validity_mask(&self) -> Mask
        ensures { mask_bits result ≡ map is_some (constant_column self.now).rows }
    {
        if self.scalar.is_null() {
            Mask::new_false(self.len)
        } else {
            Mask::new_true(self.len)
        }
    }

    /// The same rows, of the type with nulls.
    pub fn into_nullable(self) -> ConstantArray
        ensures { constant_column result ≡ nullable_column (constant_column self) }
    {
        let ConstantArray { scalar, len } = self;
        ConstantArray {
            scalar: scalar.into_nullable(),
            len,
        }
    }

    /// A second column that is equal.
    pub fn try_clone(&self, alloc: Global) -> Result<ConstantArray, AllocError>
        ensures { IfOk result (λ a. a ≡ self.now) }
    {
        Ok(ConstantArray {
            scalar: self.scalar.try_clone(alloc)?,
            len: self.len,
        })
    }
}

impl Kind for ConstantArray {
    ghost column = { constant_column };
}
