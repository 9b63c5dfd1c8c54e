// What is taken at places of which some may be null. Where all are null, no bit of theirs is set.
ghost use Rattle.std.specs.Prelude.{◌≡◌, [], false, IfOk, IsTrue, length, map};
ghost use Rattle.vortex_array_select.specs.SelectedParts.{PlacesBelow, taken_values};
ghost use Rattle.vortex_array_kinds.specs.Validities.{is_as_long};

use std::alloc::{AllocError, Global};
use vortex_array_kinds::Validity;
use vortex_array_lists::ByteLists;
use vortex_array_rows::{
    RowIndex, take_bits, take_bits_or, take_items, take_items_or, take_lists, take_lists_or,
};
use vortex_buffer::{BitBuffer, Buffer};

// The bits at places, not set where a place is null.
pub(crate) fn take_bits_under<P: RowIndex>(
    alloc: Global,
    bits: &BitBuffer,
    places: &[P],
    nulls: &Validity,
) -> Result<BitBuffer, AllocError>
    requires long { IsTrue (is_as_long nulls.now (length places.now)) }
    requires within { PlacesBelow (length bits.now) nulls.now (map P.place places.now) }
    ensures { IfOk result (λ taken. taken ≡ taken_values false nulls.now bits.now (map P.place places.now)) }
{
    match nulls {
        Validity::NonNullable | Validity::AllValid => take_bits(alloc, bits, places),
        Validity::AllInvalid => {
            let unset = BitBuffer::new_unset(alloc, places.len())?;
            take_bits_or(alloc, bits, places, &unset)
        }
        Validity::Bits(set) => take_bits_or(alloc, bits, places, set),
    }
}

// The items at places, and the default where a place is null.
pub(crate) fn take_items_under<T: Copy, P: RowIndex>(
    alloc: Global,
    items: &[T],
    places: &[P],
    nulls: &Validity,
    default: T,
) -> Result<Buffer<T>, AllocError>
    requires long { IsTrue (is_as_long nulls.now (length places.now)) }
    requires within { PlacesBelow (length items.now) nulls.now (map P.place places.now) }
    ensures { IfOk result (λ taken. taken ≡ taken_values default nulls.now items.now (map P.place places.now)) }
{
    match nulls {
        Validity::NonNullable | Validity::AllValid => take_items(alloc, items, places),
        Validity::AllInvalid => {
            let unset = BitBuffer::new_unset(alloc, places.len())?;
            take_items_or(alloc, items, places, &unset, default)
        }
        Validity::Bits(set) => take_items_or(alloc, items, places, set, default),
    }
}

// The lists of bytes at places, and the empty list where a place is null.
pub(crate) fn take_lists_under<P: RowIndex>(
    alloc: Global,
    lists: &ByteLists,
    places: &[P],
    nulls: &Validity,
) -> Result<ByteLists, AllocError>
    requires long { IsTrue (is_as_long nulls.now (length places.now)) }
    requires within { PlacesBelow (length lists.now) nulls.now (map P.place places.now) }
    ensures { IfOk result (λ taken. taken ≡ taken_values [] nulls.now lists.now (map P.place places.now)) }
{
    match nulls {
        Validity::NonNullable | Validity::AllValid => take_lists(alloc, lists, places),
        Validity::AllInvalid => {
            let unset = BitBuffer::new_unset(alloc, places.len())?;
            take_lists_or(alloc, lists, places, &unset)
        }
        Validity::Bits(set) => take_lists_or(alloc, lists, places, set),
    }
}
