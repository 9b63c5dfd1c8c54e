// Parts of a list of values, and the values and the lists of bytes at places.
ghost use Rattle.std.specs.Prelude.{◌≡◌, [], ◌<◌, ◌≤◌, All, IfOk, true, cond, length, map, slice_index_or, slice_range};
ghost use Rattle.vortex_array_rows.specs.Taken.{SetPlacesBelow, taken_or};

use crate::places::RowIndex;
use std::alloc::Global;
use vortex_array_lists::ByteLists;
use vortex_buffer::{AllocError, BitBuffer, Buffer};

/// The items from `start` up to `end`, without it. They are copied as one run.
pub fn slice_items<T: Copy>(
    alloc: Global,
    items: &[T],
    start: usize,
    end: usize,
) -> Result<Buffer<T>, AllocError>
    requires order { start ≤ end }
    requires within { end ≤ length items.now }
    ensures ok { IfOk result (λ part. part ≡ slice_range items.now start end) }
{
    Buffer::from_slice(alloc, &items[start..end])
}

/// The items at the places, in the order of the places. A place may come again.
pub fn take_items<T: Copy, P: RowIndex>(
    alloc: Global,
    items: &[T],
    places: &[P],
) -> Result<Buffer<T>, AllocError>
    requires within { All (λ place. place < length items.now) (map P.place places.now) }
    ensures ok { IfOk result (λ taken. (d : T) → taken ≡ map (λ place. slice_index_or items.now place d) (map P.place places.now)) }
{
    let mut taken = Vec::with_capacity(alloc, places.len())?;
    for place in places {
        taken.push(items[place.place()])?;
    }
    Ok(Buffer::from_vec(taken))
}

/// The items at the places whose bit is set, and the default in the others' rows. A place whose bit is not set may be
/// any number.
pub fn take_items_or<T: Copy, P: RowIndex>(
    alloc: Global,
    items: &[T],
    places: &[P],
    valid: &BitBuffer,
    default: T,
) -> Result<Buffer<T>, AllocError>
    requires same_length { length places.now ≡ length valid.now }
    requires within { SetPlacesBelow (length items.now) (map P.place places.now) valid.now }
    ensures ok { IfOk result (λ taken. taken ≡ taken_or default items.now (map P.place places.now) valid.now) }
{
    let mut taken = Vec::with_capacity(alloc, places.len())?;
    for i in 0..places.len() {
        taken.push(item_or(items, places[i], valid.value(i), default))?;
    }
    Ok(Buffer::from_vec(taken))
}

// The item at a place that is valid, else the default.
#[inline(always)]
fn item_or<T: Copy, P: RowIndex>(items: &[T], place: P, valid: bool, default: T) -> T
    requires within { valid ≡ true → P.place place < length items.now }
    ensures { result ≡ cond valid (slice_index_or items.now (P.place place) default) default }
{
    if valid { items[place.place()] } else { default }
}

/// The lists of bytes at the places, in the order of the places. A place may come again.
pub fn take_lists<P: RowIndex>(
    alloc: Global,
    lists: &ByteLists,
    places: &[P],
) -> Result<ByteLists, AllocError>
    requires within { All (λ place. place < length lists.now) (map P.place places.now) }
    ensures ok { IfOk result (λ taken. taken ≡ map (λ place. slice_index_or lists.now place []) (map P.place places.now)) }
{
    let mut taken = ByteLists::with_capacity(alloc, places.len())?;
    for place in places {
        taken.push(lists.get(place.place()))?;
    }
    Ok(taken)
}

/// The lists of bytes at the places whose bit is set, and the empty list in the others' rows. A place whose bit is not set
/// may be any number.
pub fn take_lists_or<P: RowIndex>(
    alloc: Global,
    lists: &ByteLists,
    places: &[P],
    valid: &BitBuffer,
) -> Result<ByteLists, AllocError>
    requires same_length { length places.now ≡ length valid.now }
    requires within { SetPlacesBelow (length lists.now) (map P.place places.now) valid.now }
    ensures ok { IfOk result (λ taken. taken ≡ taken_or [] lists.now (map P.place places.now) valid.now) }
{
    let mut taken = ByteLists::with_capacity(alloc, places.len())?;
    for i in 0..places.len() {
        taken.push(list_or_empty(lists, places[i], valid.value(i)))?;
    }
    Ok(taken)
}

// The list at a place that is valid, else the empty list.
fn list_or_empty<P: RowIndex>(lists: &ByteLists, place: P, valid: bool) -> &[u8]
    requires within { valid ≡ true → P.place place < length lists.now }
    ensures { result.now ≡ cond valid (slice_index_or lists.now (P.place place) []) [] }
{
    if valid { lists.get(place.place()) } else { &[] }
}
