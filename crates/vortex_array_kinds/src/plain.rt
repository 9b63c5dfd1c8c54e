// Plain arrays, whatever their kind: a value for each row, and which rows are null.
ghost use Rattle.std.specs.Prelude.{◌≡◌, ◌<◌, ◌==◌, IsTrue, IsFalse, IfOk, OnOk, OnErr, None, is_some, length, map, option_map, slice_index_or};
ghost use Rattle.vortex_buffer.specs.Mask.{mask_bits};
ghost use Rattle.vortex_array_types.specs.Row.{fits_type};
ghost use Rattle.vortex_array_types.specs.Seen.{value_seen};
ghost use Rattle.vortex_array_kinds.specs.Kinds.{nullable_column, plain_column};
ghost use Rattle.vortex_array_kinds.specs.Validities.{is_as_long, nullable_validity};

use crate::validity::{LengthMismatch, Validity, row_if};
use crate::values::{Kind, Values};
use std::alloc::{AllocError, Global};
use std::marker::Model;
use vortex_array_types::{DType, ValueRef};
use vortex_buffer::Mask;

/// A column that keeps a value for each row. The value at a place is the row there where that row is not null.
pub struct PlainArray<V: Values> {
    values: V,
    validity: Validity,
}

impl<V: Values> Drop for PlainArray<V> {
    fn drop(self) {
        let PlainArray {
            values: _values,
            validity: _validity,
        } = self;
    }
}

impl<V: Values> Model for PlainArray<V> {
    ghost use Rattle.std.specs.Prelude.{IsTrue};
    ghost use Rattle.vortex_array_kinds.specs.Parts.{PlainParts};
    ghost use Rattle.vortex_array_kinds.specs.Validities.{is_as_long};

    ghost Value = { PlainParts V };

    ghost view = { λ a. record { values = a.values; validity = a.validity } };

    ghost invariant = { λ a. IsTrue (is_as_long a.validity (V.count_of a.values)) };
}

impl<V: Values> PlainArray<V> {
    /// A column of these values, under a validity that is as long.
    pub fn new(values: V, validity: Validity) -> PlainArray<V>
        requires { IsTrue (is_as_long validity (V.count_of values)) }
        ensures { result ≡ record { values = values; validity = validity } }
    {
        PlainArray { values, validity }
    }

    // A column of these values. It is refused exactly where the validity has bits of another length.
    pub(crate) fn checked(values: V, validity: Validity) -> Result<PlainArray<V>, LengthMismatch>
        ensures ok { IfOk result (λ a. a ≡ record { values = values; validity = validity }) }
        ensures fits { OnOk result (IsTrue (is_as_long validity (V.count_of values))) }
        ensures err { OnErr result (IsFalse (is_as_long validity (V.count_of values))) }
    {
        if !validity.is_as_long(values.count()) {
            return Err(LengthMismatch);
        }
        Ok(PlainArray { values, validity })
    }

    /// The values, a null row's too.
    pub fn stored(&self) -> &V
        ensures value { result.now ≡ self.now.values }
        ensures fits { IsTrue (is_as_long self.now.validity (V.count_of self.now.values)) }
    {
        &self.values
    }

    /// Which rows are not null.
    pub fn validity(&self) -> &Validity
        ensures value { result.now ≡ self.now.validity }
        ensures fits { IsTrue (is_as_long self.now.validity (V.count_of self.now.values)) }
    {
        &self.validity
    }

    /// How many rows there are.
    pub fn len(&self) -> usize
        ensures rows { result ≡ length (plain_column V.type_of V.items self.now).rows }
        ensures values { result ≡ V.count_of self.now.values }
    {
        self.values.count()
    }

    /// Whether there is no row.
    pub fn is_empty(&self) -> bool
        ensures { result ≡ (length (plain_column V.type_of V.items self.now).rows == 0) }
    {
        self.len() == 0
    }

    /// The type.
    pub fn dtype(&self) -> DType
        ensures { result ≡ (plain_column V.type_of V.items self.now).dtype }
    {
        self.values.type_with(self.validity.nullability())
    }

    /// The row at a place, or none where it is null.
    #[inline]
    pub fn value_at(&self, i: usize) -> Option<ValueRef<'_>>
        requires { i < length (plain_column V.type_of V.items self.now).rows }
        ensures value { option_map value_seen result ≡ slice_index_or (plain_column V.type_of V.items self.now).rows i None }
        ensures fits { IsTrue (fits_type (plain_column V.type_of V.items self.now).dtype (option_map value_seen result)) }
    {
        row_if(self.validity.is_valid(i), self.values.lend(i))
    }

    /// For each row whether it is not null.
    pub fn validity_mask(&self, alloc: Global) -> Result<Mask, AllocError>
        ensures { IfOk result (λ mask. mask_bits mask ≡ map is_some (plain_column V.type_of V.items self.now).rows) }
    {
        let mask = self.validity.mask(alloc, self.values.count())?;
        Ok(mask)
    }

    /// The same rows, of the type with nulls.
    pub fn into_nullable(self) -> PlainArray<V>
        ensures value { result ≡ record self { validity = nullable_validity self.validity } }
        ensures column { plain_column V.type_of V.items result ≡ nullable_column (plain_column V.type_of V.items self) }
    {
        let PlainArray { values, validity } = self;
        PlainArray {
            values,
            validity: validity.into_nullable(),
        }
    }

    /// A second column that is equal.
    pub fn try_clone(&self, alloc: Global) -> Result<PlainArray<V>, AllocError>
        ensures { IfOk result (λ a. a ≡ self.now) }
    {
        Ok(PlainArray {
            values: self.values.copy(alloc)?,
            validity: self.validity.try_clone(alloc)?,
        })
    }
}

impl<V: Values> Kind for PlainArray<V> {
    ghost column = { plain_column V.type_of V.items };
}
