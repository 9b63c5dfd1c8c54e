// The least and the greatest value of a column of any kind.
ghost use Rattle.std.specs.Prelude.{◌≡◌, ◌<◌, IsTrue, IfOk, MatchOption, None, Some, is_some, length, slice_index_or};
ghost use Rattle.vortex_array_types.specs.Row.{value_fits};
ghost use Rattle.vortex_array_types.specs.Seen.{value_seen};
ghost use Rattle.vortex_array_types.specs.Widths.{full_form};
ghost use Rattle.vortex_array.specs.ColumnOf.{column_of};
ghost use Rattle.vortex_array_order.specs.Asked.{ExtremesBelow};
ghost use Rattle.vortex_array_order.specs.Extremes.{AreExtremes, GreatestOf, HasNoValue, LeastOf};

use crate::arrays::{Array, each_kind};
use std::alloc::{AllocError, Global};
use vortex_array_order::{ExtremePlaces, Ordered};
use vortex_array_types::{DType, Scalar, ValueRef};

/// The least and the greatest value of a column, of its type without nulls.
#[derive(Drop)]
pub struct MinMax {
    /// The least value.
    pub min: Scalar,
    /// The greatest value.
    pub max: Scalar,
}

impl Array {
    // The places of the least and of the greatest value, or none where no row is a value.
    fn extreme_places(&self) -> Option<ExtremePlaces>
        ensures { ExtremesBelow (column_of self.now).rows (length (column_of self.now).rows) result }
    {
        each_kind!(self, array => array.extremes())
    }

    // The value at a place that is not null, of the type without nulls.
    fn full_scalar_at(&self, alloc: Global, i: usize) -> Result<Scalar, AllocError>
        requires inside { i < length (column_of self.now).rows }
        requires some { IsTrue (is_some (slice_index_or (column_of self.now).rows i None)) }
        ensures { IfOk result (λ s. s ≡ record { dtype = full_form (column_of self.now).dtype; value = slice_index_or (column_of self.now).rows i None }) }
    {
        match self.value_at(i) {
            Some(value) => full_scalar(alloc, self.dtype(), value),
            None => unreachable!(),
        }
    }

    // The values at two places, the least and the greatest.
    fn min_max_at(&self, alloc: Global, least: usize, greatest: usize) -> Result<MinMax, AllocError>
        requires least { LeastOf (column_of self.now).rows (length (column_of self.now).rows) least }
        requires greatest { GreatestOf (column_of self.now).rows (length (column_of self.now).rows) greatest }
        ensures { IfOk result (λ m. AreExtremes (column_of self.now) m.min m.max) }
    {
        let min = self.full_scalar_at(alloc, least)?;
        let max = self.full_scalar_at(alloc, greatest)?;
        Ok(MinMax { min, max })
    }

    /// The least and the greatest value, of the type without nulls, or none exactly where no row is a value.
    pub fn min_max(&self, alloc: Global) -> Result<Option<MinMax>, AllocError>
        ensures { IfOk result (λ found. MatchOption found (HasNoValue (column_of self.now).rows) (λ m. AreExtremes (column_of self.now) m.min m.max)) }
    {
        match self.extreme_places() {
            None => Ok(None),
            Some(places) => match self.min_max_at(alloc, places.least, places.greatest) {
                Ok(found) => Ok(Some(found)),
                Err(error) => Err(error),
            },
        }
    }
}

// A lent value of a type as a scalar of the type without nulls.
fn full_scalar(alloc: Global, dtype: DType, value: ValueRef<'_>) -> Result<Scalar, AllocError>
    requires { IsTrue (value_fits dtype (value_seen value)) }
    ensures { IfOk result (λ s. s ≡ record { dtype = full_form dtype; value = Some (value_seen value.entry) }) }
{
    let value = value.to_value(alloc)?;
    match Scalar::try_new(dtype.into_non_nullable(), Some(value)) {
        Ok(scalar) => Ok(scalar),
        Err(_) => unreachable!(),
    }
}
