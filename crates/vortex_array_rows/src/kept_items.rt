// The values that a mask keeps, found by words of 64 bits.
ghost use Rattle.std.specs.Prelude.{◌≡◌, ◌<◌, ◌≤◌, ◌+◌, ◌*◌, ◌^◌, ◌++◌, IfOk, OnOk, length, take};
ghost use Rattle.vortex_buffer.specs.Mask.{mask_bits};
ghost use Rattle.vortex_array_rows.specs.Kept.{kept_by, kept_in};

use std::alloc::Global;
use vortex_buffer::{AllocError, BitBuffer, Buffer, Mask};

// A word with at most so many set bits is walked from set bit to set bit, any other without a branch.
const FEW: u32 = 12;

/// The items whose bit is set in the mask, in their order.
pub fn filter_items<T: Copy>(
    alloc: Global,
    items: &[T],
    mask: &Mask,
) -> Result<Buffer<T>, AllocError>
    requires same_length { length (mask_bits mask.now) ≡ length items.now }
    ensures ok { IfOk result (λ kept. kept ≡ kept_by (mask_bits mask.now) items.now) }
{
    match mask {
        Mask::AllTrue(_) => {
            let all = Buffer::from_slice(alloc, items)?;
            Ok(all)
        }
        Mask::AllFalse(_) => Ok(Buffer::from_vec(Vec::new(alloc))),
        Mask::Values(bits) => filter_by_bits(alloc, items, bits),
    }
}

// The items whose bit is set, by groups of 64.
fn filter_by_bits<T: Copy>(
    alloc: Global,
    items: &[T],
    bits: &BitBuffer,
) -> Result<Buffer<T>, AllocError>
    requires same_length { length bits.now ≡ length items.now }
    ensures ok { IfOk result (λ kept. kept ≡ kept_by bits.now items.now) }
{
    if items.is_empty() {
        return Ok(Buffer::from_vec(Vec::new(alloc)));
    }
    let mut room = Vec::from_elem(alloc, items[0], 64)?;
    filter_over(alloc, items, bits, &mut room)
}

// The items whose bit is set, by groups of 64 that are packed in the room.
fn filter_over<T: Copy>(
    alloc: Global,
    items: &[T],
    bits: &BitBuffer,
    room: &mut [T],
) -> Result<Buffer<T>, AllocError>
    requires same_length { length bits.now ≡ length items.now }
    requires room { length room.old ≡ 64 }
    ensures ok { IfOk result (λ kept. kept ≡ kept_by bits.now items.now) }
{
    let mut kept = Vec::with_capacity(alloc, bits.count())?;
    for k in 0..items.len().div_ceil(64) {
        let start = 64 * k;
        let end = start + (items.len() - start).min(64);
        push_group(&mut kept, &items[start..end], bits.word(k), room)?;
    }
    Ok(Buffer::from_vec(kept))
}

// Pushes the items of a group of at most 64 whose bit is set in the word.
#[inline(always)]
fn push_group<T: Copy>(
    kept: &mut Vec<T>,
    group: &[T],
    word: u64,
    room: &mut [T],
) -> Result<(), AllocError>
    requires small { length group.now ≤ 64 }
    requires word { word < 2 ^ length group.now }
    requires room { length room.old ≡ 64 }
    ensures ok { OnOk result (kept.new.items ≡ kept.old.items ++ kept_in word group.now) }
{
    if word == 0 {
        return Ok(());
    }
    if word == u64::MAX {
        kept.extend_from_slice(group)?;
        return Ok(());
    }
    if word.count_ones() <= FEW {
        return push_walked(kept, group, word);
    }
    let count = pack_items(room, group, word);
    kept.extend_from_slice(&room[..count])?;
    Ok(())
}

// Pushes the items whose bit is set, going from set bit to set bit.
#[inline(always)]
fn push_walked<T: Copy>(kept: &mut Vec<T>, group: &[T], word: u64) -> Result<(), AllocError>
    requires small { length group.now ≤ 64 }
    requires word { word < 2 ^ length group.now }
    ensures ok { OnOk result (kept.new.items ≡ kept.old.items ++ kept_in word group.now) }
{
    let mut rest = word;
    let mut at = 0usize;
    while rest != 0 {
        let skip = rest.trailing_zeros();
        let place = at + skip as usize;
        kept.push(group[place])?;
        rest = (rest >> skip) >> 1;
        at = place + 1;
    }
    Ok(())
}

// Writes the items whose bit is set to the front of the room, and says how many they are. Each item is written, and the
// next one over it where its bit is not set, so that there is no branch.
#[inline(always)]
fn pack_items<T: Copy>(room: &mut [T], group: &[T], word: u64) -> usize
    requires small { length group.now ≤ 64 }
    requires room { length room.old ≡ 64 }
    ensures count { result ≤ 64 }
    ensures packed { take result room.new ≡ kept_in word group.now }
{
    if group.len() == 64 {
        return pack_whole(room, group, word);
    }
    pack_some(room, group, word)
}

// The same of a group of 64, by eights: a loop of eight is unrolled.
#[inline(always)]
fn pack_whole<T: Copy>(room: &mut [T], group: &[T], word: u64) -> usize
    requires whole { length group.now ≡ 64 }
    requires room { length room.old ≡ 64 }
    ensures count { result ≤ 64 }
    ensures packed { take result room.new ≡ kept_in word group.now }
{
    let mut count = 0usize;
    for k in 0..8 {
        count = pack_eight(room, group, word, 8 * k, count);
    }
    count
}

// Writes the items whose bit is set of the eight from a place on, behind those that are kept of the items before.
#[inline(always)]
fn pack_eight<T: Copy>(room: &mut [T], group: &[T], word: u64, at: usize, kept: usize) -> usize
    requires inside { at + 8 ≤ length group.now }
    requires whole { length group.now ≡ 64 }
    requires room { length room.old ≡ 64 }
    requires few { kept ≤ at }
    requires packed { take kept room.old ≡ kept_in word (take at group.now) }
    ensures few { result ≤ at + 8 }
    ensures packed { take result room.new ≡ kept_in word (take (at + 8) group.now) }
{
    let bits = word >> at;
    let mut count = kept;
    for i in 0..8 {
        room[count] = group[at + i];
        count += ((bits >> i) & 1) as usize;
    }
    count
}

// The same of a group of any length.
#[inline(always)]
fn pack_some<T: Copy>(room: &mut [T], group: &[T], word: u64) -> usize
    requires small { length group.now ≤ 64 }
    requires room { length room.old ≡ 64 }
    ensures count { result ≤ 64 }
    ensures packed { take result room.new ≡ kept_in word group.now }
{
    let mut count = 0usize;
    for i in 0..group.len() {
        room[count] = group[i];
        count += ((word >> i) & 1) as usize;
    }
    count
}
