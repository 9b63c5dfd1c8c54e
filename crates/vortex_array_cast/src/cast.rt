// What a cast of a column is, whatever its kind.
ghost use Rattle.std.specs.Prelude.{◌≡◌, IsTrue, IfOk, IfErr, OnOk};
ghost use Rattle.std.specs.List.{list_all};
ghost use Rattle.vortex_array_types.specs.Row.{value_fits};
ghost use Rattle.vortex_array_types.specs.Typed.{same_apart_from_nullability};
ghost use Rattle.vortex_array_types.specs.Widths.{with_nullability};
ghost use Rattle.vortex_array_types.specs.declared.types.Nullability.{Nullability};
ghost use Rattle.vortex_array_types.specs.declared.types.Nullability.TheVariants.{NonNullable};
ghost use Rattle.vortex_array_kinds.specs.Validities.{is_as_long};
ghost use Rattle.vortex_array_cast.specs.declared.errors.CastError.TheVariants as errors;
ghost use Rattle.vortex_array_cast.specs.Casts.{AreCast, IsCast, RefusesCast, can_cast, cast_column, validity_with};

use crate::errors::CastError;
use crate::refusals::{first_refused, is_castable};
use std::alloc::{AllocError, Global};
use vortex_array_kinds::{Kind, PlainArray, Validity, Values};
use vortex_array_types::{DType, Nullability};

/// Values that are cast to a type.
pub trait CastValues: Values {
    /// As many values of a type to which theirs can be cast, and whether all values fit it. Each that fits it is the same
    /// there, and in the place of another stands any.
    fn cast_values(&self, alloc: Global, dtype: &DType) -> Result<(Self, bool), AllocError>
        requires castable { IsTrue (can_cast (Self.type_of self.now NonNullable) dtype.now) }
        ensures same_length { IfOk result (λ made. Self.count_of made.0 ≡ Self.count_of self.now) }
        ensures same_type { IfOk result (λ made. (n : Nullability) → Self.type_of made.0 n ≡ with_nullability n dtype.now) }
        ensures ok { IfOk result (λ made. AreCast (value_fits dtype.now) (Self.items self.now) (Self.items made.0)) }
        ensures fits { IfOk result (λ made. made.1 ≡ list_all (value_fits dtype.now) (Self.items self.now)) };
}

/// A kind of columns that are cast to another type.
pub trait Cast: Kind {
    /// The same rows, of this type. It is refused exactly where the type cannot be cast to it, and at the first row that
    /// does not fit it: null where the type has none, or a number outside its width.
    fn cast(&self, alloc: Global, dtype: &DType) -> Result<Self, CastError>
        ensures ok { IfOk result (λ a. Self.column a ≡ cast_column dtype.now (Self.column self.now)) }
        ensures fits { OnOk result (IsCast dtype.now (Self.column self.now)) }
        ensures err { IfErr result (RefusesCast dtype.now (Self.column self.now)) };
}

impl<V: CastValues> Cast for PlainArray<V> {
    fn cast(&self, alloc: Global, dtype: &DType) -> Result<PlainArray<V>, CastError> {
        if !is_castable(&self.dtype(), dtype) {
            return Err(CastError::Unsupported);
        }
        match self.stored().cast_values(alloc, dtype) {
            Ok((values, fit)) => match first_refused(self, dtype, fit) {
                None => with_validity(alloc, values, self.validity(), dtype.nullability()),
                Some(error) => Err(error),
            },
            Err(_) => match first_refused(self, dtype, false) {
                None => Err(CastError::OutOfMemory),
                Some(error) => Err(error),
            },
        }
    }
}

// A column of these values, the same rows null, of a type with nulls; or none null.
fn with_validity<V: Values>(
    alloc: Global,
    values: V,
    validity: &Validity,
    nullability: Nullability,
) -> Result<PlainArray<V>, CastError>
    requires long { IsTrue (is_as_long validity.now (V.count_of values)) }
    ensures ok { IfOk result (λ a. a ≡ record { values = values; validity = validity_with nullability validity.now }) }
    ensures err { IfErr result (λ e. e ≡ errors.OutOfMemory) }
{
    match nullability {
        Nullability::NonNullable => Ok(PlainArray::new(values, Validity::NonNullable)),
        Nullability::Nullable => match validity.try_clone(alloc) {
            Ok(copy) => Ok(PlainArray::new(values, copy.into_nullable())),
            Err(_) => Err(CastError::OutOfMemory),
        },
    }
}

/// The same values, for a type that differs from theirs by its nulls alone.
pub(crate) fn cast_same<V: Values>(
    alloc: Global,
    values: &V,
    dtype: &DType,
) -> Result<(V, bool), AllocError>
    requires same_type { IsTrue (same_apart_from_nullability (V.type_of values.now NonNullable) dtype.now) }
    requires fits { IsTrue (list_all (value_fits (V.type_of values.now NonNullable)) (V.items values.now)) }
    ensures same_length { IfOk result (λ made. V.count_of made.0 ≡ V.count_of values.now) }
    ensures same_type { IfOk result (λ made. (n : Nullability) → V.type_of made.0 n ≡ with_nullability n dtype.now) }
    ensures ok { IfOk result (λ made. AreCast (value_fits dtype.now) (V.items values.now) (V.items made.0)) }
    ensures fits { IfOk result (λ made. made.1 ≡ list_all (value_fits dtype.now) (V.items values.now)) }
{
    let _ = dtype;
    let copy = values.copy(alloc)?;
    Ok((copy, true))
}
