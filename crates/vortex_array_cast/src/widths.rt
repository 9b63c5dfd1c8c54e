// Numbers that are written in another width: one pass over the items, and one proof for all pairs of widths.
ghost use Rattle.std.specs.Prelude.{◌≡◌, ◌≤◌, ◌+◌, [], min, IsTrue, IfOk, OnOk, length, map, take, drop};
ghost use Rattle.std.specs.List.{list_all};
ghost use Rattle.vortex_array_types.specs.Row.{in_width};
ghost use Rattle.vortex_array_kinds.specs.Kinds.{numbers_of, ptype_of};
ghost use Rattle.vortex_array_cast.specs.Casts.{AreCast};

use std::alloc::{AllocError, Global};
use vortex_array_kinds::{PrimitiveBuffer, PrimitiveWidth, convert};
use vortex_buffer::Buffer;

// So many numbers are made at a time, in a room of their own that stays in the processor's cache. From there they are
// appended, so that the answer's memory is written once.
const BLOCK: usize = 512;

// The number of an item in another width, or another number where it lies outside; and whether it lies inside.
#[inline(always)]
fn convert_or<T: PrimitiveWidth, U: PrimitiveWidth>(item: T, other: U) -> (U, bool)
    ensures same { IsTrue result.1 → U.number result.0 ≡ T.number item }
    ensures fits { result.1 ≡ in_width U.width (T.number item) }
{
    match convert(item) {
        Some(number) => (number, true),
        None => (other, false),
    }
}

// Writes the numbers from `start` on, and says whether they and those before lie in the width; `fit` says so of those
// before. No lane is tested by a branch.
#[inline]
fn cast_block<T: PrimitiveWidth, U: PrimitiveWidth>(
    items: &[T],
    start: usize,
    fit: bool,
    other: U,
    out: &mut [U],
) -> bool
    requires within { start + length out.old ≤ length items.now }
    requires fit { fit ≡ list_all (in_width U.width) (take start (map T.number items.now)) }
    ensures cast { AreCast (in_width U.width) (drop start (map T.number items.now)) (map U.number out.new) }
    ensures fit { result ≡ list_all (in_width U.width) (take (start + length out.new) (map T.number items.now)) }
{
    let mut all_fit = fit;
    for i in 0..out.len() {
        let (number, fits) = convert_or(items[start + i], other);
        out[i] = number;
        all_fit = all_fit & fits;
    }
    all_fit
}

// Pushes the numbers up to `end`, which are made in the room.
#[inline]
fn push_block<T: PrimitiveWidth, U: PrimitiveWidth>(
    items: &[T],
    end: usize,
    fit: bool,
    other: U,
    room: &mut [U],
    out: &mut Vec<U>,
) -> Result<bool, AllocError>
    requires order { length out.old.items ≤ end }
    requires within { end ≤ length items.now }
    requires room { end ≤ length out.old.items + length room.old }
    requires cast { AreCast (in_width U.width) (map T.number items.now) (map U.number out.old.items) }
    requires fit { fit ≡ list_all (in_width U.width) (take (length out.old.items) (map T.number items.now)) }
    ensures cast { OnOk result (AreCast (in_width U.width) (map T.number items.now) (map U.number out.new.items)) }
    ensures end { OnOk result (length out.new.items ≡ end) }
    ensures fit { IfOk result (λ fit. fit ≡ list_all (in_width U.width) (take end (map T.number items.now))) }
{
    let start = out.len();
    let block = &mut room[..end - start];
    let all_fit = cast_block(items, start, fit, other, block);
    out.extend_from_slice(block)?;
    Ok(all_fit)
}

// Pushes all numbers by blocks, which are made in the room.
fn push_blocks<T: PrimitiveWidth, U: PrimitiveWidth>(
    items: &[T],
    other: U,
    room: &mut [U],
    out: &mut Vec<U>,
) -> Result<bool, AllocError>
    requires room { length room.old ≡ min (length items.now) 512 }
    requires empty { out.old.items ≡ [] }
    ensures cast { OnOk result (AreCast (in_width U.width) (map T.number items.now) (map U.number out.new.items)) }
    ensures end { OnOk result (length out.new.items ≡ length items.now) }
    ensures fit { IfOk result (λ fit. fit ≡ list_all (in_width U.width) (map T.number items.now)) }
{
    let mut fit = true;
    for k in 0..items.len().div_ceil(BLOCK) {
        let start = BLOCK * k;
        let end = start + (items.len() - start).min(BLOCK);
        fit = push_block(items, end, fit, other, room, out)?;
    }
    Ok(fit)
}

// Makes the room, and pushes all numbers.
fn push_all<T: PrimitiveWidth, U: PrimitiveWidth>(
    alloc: Global,
    items: &[T],
    other: U,
    out: &mut Vec<U>,
) -> Result<bool, AllocError>
    requires empty { out.old.items ≡ [] }
    ensures cast { OnOk result (AreCast (in_width U.width) (map T.number items.now) (map U.number out.new.items)) }
    ensures end { OnOk result (length out.new.items ≡ length items.now) }
    ensures fit { IfOk result (λ fit. fit ≡ list_all (in_width U.width) (map T.number items.now)) }
{
    let mut room = Vec::from_elem(alloc, other, items.len().min(BLOCK))?;
    push_blocks(items, other, &mut room, out)
}

/// The numbers in another width, where they lie in it, and whether all do. In the place of one that does not stands any.
pub(crate) fn cast_items<T: PrimitiveWidth, U: PrimitiveWidth>(
    alloc: Global,
    items: &[T],
    other: U,
) -> Result<(PrimitiveBuffer, bool), AllocError>
    ensures width { IfOk result (λ made. ptype_of made.0 ≡ U.width) }
    ensures same_length { IfOk result (λ made. length (numbers_of made.0) ≡ length (map T.number items.now)) }
    ensures ok { IfOk result (λ made. AreCast (in_width U.width) (map T.number items.now) (numbers_of made.0)) }
    ensures fits { IfOk result (λ made. made.1 ≡ list_all (in_width U.width) (map T.number items.now)) }
{
    let mut out = Vec::with_capacity(alloc, items.len())?;
    let fit = push_all(alloc, items, other, &mut out)?;
    Ok((U::into_buffer(Buffer::from_vec(out)), fit))
}
