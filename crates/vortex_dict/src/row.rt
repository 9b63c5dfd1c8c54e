// One row of a dictionary.
ghost use Rattle.std.specs.Prelude.{◌≡◌, ◌<◌, IfOk, IsTrue, None, length, slice_index_or};
ghost use Rattle.vortex_array_types.specs.Row.{is_nullable};
ghost use Rattle.vortex_array.specs.ColumnOf.{column_of};
ghost use Rattle.vortex_dict.specs.Decoded.{dict_column};

use crate::codes::number_of;
use crate::dict::DictArray;
use std::alloc::{AllocError, Global};
use vortex_array::{DType, Scalar};

impl DictArray {
    /// The row at a place, with the type.
    pub fn scalar_at(&self, alloc: Global, i: usize) -> Result<Scalar, AllocError>
        requires { i < length (dict_column self.now).rows }
        ensures { IfOk result (λ s. s ≡ record { dtype = (dict_column self.now).dtype; value = slice_index_or (dict_column self.now).rows i None }) }
    {
        let codes = self.codes();
        match codes.value_at(i) {
            Some(code) => value_scalar(alloc, self, number_of(codes.dtype(), code)),
            None => Ok(null_scalar(self.dtype())),
        }
    }
}

// The value at a code, with the dictionary's type.
fn value_scalar(alloc: Global, dict: &DictArray, code: u64) -> Result<Scalar, AllocError>
    requires { code < length (column_of dict.now.values).rows }
    ensures { IfOk result (λ s. s ≡ record { dtype = (dict_column dict.now).dtype; value = slice_index_or (column_of dict.now.values).rows code None }) }
{
    let scalar = dict.values().scalar_at(alloc, code as usize)?;
    if dict.codes().dtype().is_nullable() {
        Ok(scalar.into_nullable())
    } else {
        Ok(scalar)
    }
}

// Null of a type with nulls.
fn null_scalar(dtype: DType) -> Scalar
    requires { IsTrue (is_nullable dtype) }
    ensures { result ≡ record { dtype = dtype; value = None } }
{
    match Scalar::try_new(dtype, None) {
        Ok(scalar) => scalar,
        Err(_) => unreachable!(),
    }
}
