// Dictionaries cast to another type: each value is, also one that no code names, and the codes stay.
ghost use Rattle.std.specs.Prelude.{◌≡◌, IfErr, IfOk, IsFalse, IsTrue, OnOk};
ghost use Rattle.vortex_array_types.specs.Row.{is_nullable};
ghost use Rattle.vortex_array_cast.specs.Casts.{IsCast, cast_column};
ghost use Rattle.vortex_array_select.specs.Selected.{is_index_type};
ghost use Rattle.vortex_array.specs.ColumnOf.{column_of};
ghost use Rattle.vortex_array_types.specs.Widths.{full_form};
ghost use Rattle.vortex_dict.specs.Casts.{HaveNoNull, IsDictCast, RefusesCodes, RefusesDictCast, RefusesFull, RefusesValues, codes_cast};
ghost use Rattle.vortex_dict.specs.Decoded.{dict_column};

use crate::dict::DictArray;
use crate::error::DictCastError;
use std::alloc::Global;
use vortex_array::{Array, CastError, DType};

impl DictArray {
    /// The same rows, of this type. Each value is cast, also one that no code names. Codes of a type with nulls lose it where
    /// the new type has none.
    ///
    /// The first refusal that holds is answered: `Unsupported` where the types are neither both of whole numbers nor the same
    /// apart from nullability; `ValueDoesNotFit` or `ValueHasNull` with the first value that does not fit the type; `CodeNull`
    /// with the first code that is null where the type has no nulls. `OutOfMemory` may stand before the last.
    pub fn cast(&self, alloc: Global, dtype: &DType) -> Result<DictArray, DictCastError>
        ensures ok { IfOk result (λ d. dict_column d ≡ cast_column dtype.now (dict_column self.now)) }
        ensures fits { OnOk result (IsDictCast dtype.now self.now) }
        ensures err { IfErr result (RefusesDictCast dtype.now self.now) }
    {
        let values = cast_values(alloc, self.values(), dtype)?;
        let codes = cast_codes(alloc, self.codes(), dtype)?;
        Ok(DictArray::new(codes, values))
    }
}

// The values, of this type.
fn cast_values(alloc: Global, values: &Array, dtype: &DType) -> Result<Array, DictCastError>
    ensures ok { IfOk result (λ a. column_of a ≡ cast_column dtype.now (column_of values.now)) }
    ensures fits { OnOk result (IsCast dtype.now (column_of values.now)) }
    ensures err { IfErr result (RefusesValues dtype.now (column_of values.now)) }
{
    match values.cast(alloc, dtype) {
        Ok(values) => Ok(values),
        Err(CastError::Unsupported) => Err(DictCastError::Unsupported),
        Err(CastError::HasNull { row }) => Err(DictCastError::ValueHasNull { place: row }),
        Err(CastError::DoesNotFit { row }) => Err(DictCastError::ValueDoesNotFit { place: row }),
        Err(CastError::OutOfMemory) => Err(DictCastError::OutOfMemory),
    }
}

// The codes of values that are cast to this type: of a type without nulls where it has none.
fn cast_codes(alloc: Global, codes: &Array, dtype: &DType) -> Result<Array, DictCastError>
    requires { IsTrue (is_index_type (column_of codes.now).dtype) }
    ensures ok { IfOk result (λ a. column_of a ≡ codes_cast dtype.now (column_of codes.now)) }
    ensures fits { OnOk result (IsFalse (is_nullable dtype.now) → HaveNoNull (column_of codes.now).rows) }
    ensures err { IfErr result (RefusesCodes dtype.now (column_of codes.now)) }
{
    if !dtype.is_nullable() {
        return full_codes(alloc, codes);
    }
    match codes.try_clone(alloc) {
        Ok(codes) => Ok(codes),
        Err(_) => Err(DictCastError::OutOfMemory),
    }
}

// The codes, of a type without nulls. A code that does not fit it is null: what a row tells of itself says that a number fits.
fn full_codes(alloc: Global, codes: &Array) -> Result<Array, DictCastError>
    requires { IsTrue (is_index_type (column_of codes.now).dtype) }
    ensures ok { IfOk result (λ a. column_of a ≡ cast_column (full_form (column_of codes.now).dtype) (column_of codes.now)) }
    ensures fits { OnOk result (HaveNoNull (column_of codes.now).rows) }
    ensures err { IfErr result (RefusesFull (column_of codes.now).rows) }
{
    match codes.cast(alloc, &codes.dtype().into_non_nullable()) {
        Ok(codes) => Ok(codes),
        Err(CastError::HasNull { row }) => Err(DictCastError::CodeNull { row }),
        Err(CastError::OutOfMemory) => Err(DictCastError::OutOfMemory),
        Err(CastError::DoesNotFit { row }) => {
            let _ = codes.value_at(row);
            unreachable!()
        }
        Err(CastError::Unsupported) => unreachable!(),
    }
}
