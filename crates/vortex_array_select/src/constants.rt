// Parts of columns of equal rows.
ghost use Rattle.std.specs.Prelude.{◌≡◌, IfOk, IsTrue, length, map};
ghost use Rattle.vortex_array_kinds.specs.Kinds.{constant_column};
ghost use Rattle.vortex_array_kinds.specs.Validities.{has_none};
ghost use Rattle.vortex_array_select.specs.Selected.{taken};
ghost use Rattle.vortex_array_select.specs.SelectedParts.{PlacesBelow, index_column, taken_type};

use crate::select::Select;
use std::alloc::{AllocError, Global};
use vortex_array_kinds::{ConstantArray, Validity};
use vortex_array_rows::RowIndex;
use vortex_array_types::Scalar;
use vortex_buffer::Mask;

impl Select for ConstantArray {
    fn slice(&self, alloc: Global, start: usize, end: usize) -> Result<ConstantArray, AllocError> {
        let scalar = self.scalar().try_clone(alloc)?;
        Ok(ConstantArray::new(scalar, end - start))
    }

    fn filter(&self, alloc: Global, mask: &Mask) -> Result<ConstantArray, AllocError> {
        let scalar = self.scalar().try_clone(alloc)?;
        Ok(ConstantArray::new(scalar, mask.true_count()))
    }
}

/// The equal rows at the places, of which none is null.
pub fn take_constant<P: RowIndex>(
    alloc: Global,
    array: &ConstantArray,
    places: &[P],
    nulls: &Validity,
) -> Result<ConstantArray, AllocError>
    requires present { IsTrue (has_none nulls.now) }
    requires within { PlacesBelow (length (constant_column array.now).rows) nulls.now (map P.place places.now) }
    ensures { IfOk result (λ part. constant_column part ≡ taken (index_column nulls.now (map P.place places.now)) (constant_column array.now)) }
{
    let scalar = scalar_under(alloc, array.scalar(), nulls)?;
    Ok(ConstantArray::new(scalar, places.len()))
}

// The same value, of the type of rows that are taken at places.
fn scalar_under(alloc: Global, scalar: &Scalar, nulls: &Validity) -> Result<Scalar, AllocError>
    ensures { IfOk result (λ s. s ≡ record { dtype = taken_type nulls.now scalar.now.dtype; value = scalar.now.value }) }
{
    let scalar = scalar.try_clone(alloc)?;
    match nulls {
        Validity::NonNullable => Ok(scalar),
        Validity::AllValid | Validity::AllInvalid | Validity::Bits(_) => Ok(scalar.into_nullable()),
    }
}
