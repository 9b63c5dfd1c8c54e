// Columns of any kind cast to another type.
ghost use Rattle.std.specs.Prelude.{◌≡◌, IfOk, IfErr, OnOk};
ghost use Rattle.vortex_array.specs.ColumnOf.{column_of};
ghost use Rattle.vortex_array_cast.specs.Casts.{IsCast, RefusesCast, cast_column};

use crate::arrays::{Array, same_kind};
use std::alloc::Global;
use vortex_array_cast::{Cast, CastError};
use vortex_array_types::DType;

impl Array {
    /// The same rows, of this type.
    ///
    /// The first refusal that holds is answered: `Unsupported` where the types are neither both of whole numbers nor the
    /// same apart from nullability; `HasNull` or `DoesNotFit` with the first row that does not fit the type, a null or a
    /// number outside its width; `OutOfMemory`.
    pub fn cast(&self, alloc: Global, dtype: &DType) -> Result<Array, CastError>
        ensures ok { IfOk result (λ a. column_of a ≡ cast_column dtype.now (column_of self.now)) }
        ensures fits { OnOk result (IsCast dtype.now (column_of self.now)) }
        ensures err { IfErr result (RefusesCast dtype.now (column_of self.now)) }
    {
        same_kind!(self, array => array.cast(alloc, dtype))
    }
}
