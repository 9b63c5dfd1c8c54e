// Dictionaries, and what they are made of.
ghost use Rattle.std.specs.Prelude.{◌≡◌, ◌==◌, IfErr, IfOk, OnOk, length};
ghost use Rattle.vortex_array.specs.ColumnOf.{column_of};
ghost use Rattle.vortex_dict.specs.Decoded.{AreCodes, dict_column};
ghost use Rattle.vortex_dict.specs.Refused.{Refuses};

use crate::codes::refusal;
use crate::error::DictError;
use std::alloc::{AllocError, Global};
use std::marker::Model;
use vortex_array::{Array, DType};

/// A column that is kept as codes, one for each row, and the values that they name. Row i is null where code i is null, else
/// the value at that code. Contracts see the codes and the values; `dict_column` reads them as the column.
pub struct DictArray {
    codes: Array,
    values: Array,
}

impl Drop for DictArray {
    fn drop(self) {
        let DictArray {
            codes: _codes,
            values: _values,
        } = self;
    }
}

impl Model for DictArray {
    ghost use Rattle.vortex_dict.specs.Decoded.{AreCodes};
    ghost use Rattle.vortex_dict.specs.Parts.{DictParts};

    ghost Value = { DictParts };

    ghost view = { λ d. record { codes = d.codes; values = d.values } };

    ghost invariant = { λ d. AreCodes d.codes d.values };
}

impl DictArray {
    /// A dictionary of these codes and values. It is refused exactly where the codes are not of an unsigned type, and else
    /// where one that is not null is not below the number of values: the first such code is told. It takes no memory.
    pub fn try_new(codes: Array, values: Array) -> Result<DictArray, DictError>
        ensures ok { IfOk result (λ d. d ≡ record { codes = codes; values = values }) }
        ensures fits { OnOk result (AreCodes codes values) }
        ensures err { IfErr result (Refuses (column_of codes) (length (column_of values).rows)) }
    {
        match refusal(&codes, values.len()) {
            Some(error) => Err(error),
            None => Ok(DictArray { codes, values }),
        }
    }

    /// A dictionary of these codes and values, which `try_new` would not refuse.
    pub fn new(codes: Array, values: Array) -> DictArray
        requires { AreCodes codes values }
        ensures { result ≡ record { codes = codes; values = values } }
    {
        DictArray { codes, values }
    }

    /// A dictionary of these codes and values, which `try_new` would not refuse. Nothing is tested, and nothing can go wrong:
    /// the caller has proved it, as for `new`.
    pub fn new_unchecked(codes: Array, values: Array) -> DictArray
        requires { AreCodes codes values }
        ensures { result ≡ record { codes = codes; values = values } }
    {
        DictArray { codes, values }
    }

    /// The codes, one for each row.
    pub fn codes(&self) -> &Array
        ensures value { result.now ≡ self.now.codes }
        ensures fits { AreCodes self.now.codes self.now.values }
    {
        &self.codes
    }

    /// The values.
    pub fn values(&self) -> &Array
        ensures value { result.now ≡ self.now.values }
        ensures fits { AreCodes self.now.codes self.now.values }
    {
        &self.values
    }

    /// How many rows there are.
    pub fn len(&self) -> usize
        ensures { result ≡ length (dict_column self.now).rows }
    {
        self.codes.len()
    }

    /// Whether there is no row.
    pub fn is_empty(&self) -> bool
        ensures { result ≡ (length (dict_column self.now).rows == 0) }
    {
        self.len() == 0
    }

    /// The type: that of the values, with nulls where the codes or the values have them.
    pub fn dtype(&self) -> DType
        ensures { result ≡ (dict_column self.now).dtype }
    {
        if self.codes.dtype().is_nullable() {
            self.values.dtype().into_nullable()
        } else {
            self.values.dtype()
        }
    }

    /// A second dictionary of equal codes and values.
    pub fn try_clone(&self, alloc: Global) -> Result<DictArray, AllocError>
        ensures { IfOk result (λ d. d ≡ self.now) }
    {
        let codes = self.codes.try_clone(alloc)?;
        let values = self.values.try_clone(alloc)?;
        Ok(DictArray { codes, values })
    }
}
