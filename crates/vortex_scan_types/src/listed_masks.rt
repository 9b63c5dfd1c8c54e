// Masks of the listed places of a range, and of its other places.
ghost use Rattle.std.specs.Prelude.{◌≡◌, map, not, IfOk};
ghost use Rattle.std.specs.Ordering.{nat_cmp};
ghost use Rattle.vortex_buffer.specs.Mask.{mask_bits};
ghost use Rattle.vortex_scan_types.specs.Members.{is_listed, places_of};
ghost use Rattle.vortex_scan_types.specs.Sorted.{Increases};

use crate::listed::{listed_within, places_in};
use crate::listed_words::{listed_bits, other_bits};
use std::alloc::{AllocError, Global};
use std::ops::Range;
use vortex_buffer::Mask;

// The mask that keeps the listed places of a range.
pub(crate) fn listed_mask(
    alloc: Global,
    listed: &[u64],
    range: &Range<u64>,
) -> Result<Mask, AllocError>
    requires { Increases nat_cmp listed.now }
    ensures { IfOk result (λ mask. mask_bits mask ≡ map (λ place. is_listed listed.now place) (places_of range.now)) }
{
    let part = listed_within(listed, range);
    let len = places_in(range) as usize;
    if part.is_empty() {
        return Ok(Mask::new_false(len));
    }
    if part.len() == len {
        return Ok(Mask::new_true(len));
    }
    Ok(Mask::from_buffer(listed_bits(alloc, part, range.start, len)?))
}

// The mask that keeps the places of a range that are not listed.
pub(crate) fn other_mask(
    alloc: Global,
    listed: &[u64],
    range: &Range<u64>,
) -> Result<Mask, AllocError>
    requires { Increases nat_cmp listed.now }
    ensures { IfOk result (λ mask. mask_bits mask ≡ map (λ place. not (is_listed listed.now place)) (places_of range.now)) }
{
    let part = listed_within(listed, range);
    let len = places_in(range) as usize;
    if part.is_empty() {
        return Ok(Mask::new_true(len));
    }
    if part.len() == len {
        return Ok(Mask::new_false(len));
    }
    Ok(Mask::from_buffer(other_bits(alloc, part, range.start, len)?))
}
