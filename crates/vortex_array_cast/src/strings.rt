// Texts and bytes cast and filled.
ghost use Rattle.std.specs.Prelude.{◌≡◌, ◌<◌, [], IsTrue, IfOk, cond, length, slice_index_or};
ghost use Rattle.vortex_array_kinds.specs.Validities.{is_as_long, valid_at, valid_bits};
ghost use Rattle.vortex_array_cast.specs.Filled.{filled_items};

use crate::cast::{CastValues, cast_same};
use crate::fill::FillValues;
use std::alloc::{AllocError, Global};
use vortex_array_kinds::{Strings, Validity};
use vortex_array_lists::ByteLists;
use vortex_array_types::{DType, ValueRef};

impl CastValues for Strings {
    fn cast_values(&self, alloc: Global, dtype: &DType) -> Result<(Strings, bool), AllocError> {
        cast_same(alloc, self, dtype)
    }
}

impl FillValues for Strings {
    fn fill_values(
        &self,
        alloc: Global,
        validity: &Validity,
        fill: ValueRef<'_>,
    ) -> Result<Strings, AllocError> {
        let kind = self.kind();
        let filled = fill_lists(alloc, self.lists(), validity, kind.bytes_in(fill))?;
        Ok(Strings::new(kind, filled))
    }
}

// The lists of bytes, and the fill at the places that are not valid.
fn fill_lists(
    alloc: Global,
    lists: &ByteLists,
    validity: &Validity,
    fill: &[u8],
) -> Result<ByteLists, AllocError>
    requires long { IsTrue (is_as_long validity.now (length lists.now)) }
    ensures { IfOk result (λ b. b ≡ filled_items fill.now lists.now (valid_bits validity.now (length lists.now))) }
{
    let mut filled = ByteLists::new(alloc);
    for i in 0..lists.len() {
        filled.push(list_or(lists, validity, i, fill))?;
    }
    Ok(filled)
}

// The list at a place that is valid, else the fill.
fn list_or<'a>(lists: &'a ByteLists, validity: &Validity, i: usize, fill: &'a [u8]) -> &'a [u8]
    requires within { i < length lists.now }
    ensures { result.now ≡ cond (valid_at validity.now i) (slice_index_or lists.now i []) fill.now }
{
    if validity.is_valid(i) {
        lists.get(i)
    } else {
        fill
    }
}
