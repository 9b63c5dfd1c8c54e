// The lists of bytes that a mask keeps, found by words of 64 bits.
ghost use Rattle.std.specs.Prelude.{◌≡◌, ◌<◌, ◌≤◌, ◌-◌, ◌^◌, ◌++◌, IfOk, OnOk, drop, length};
ghost use Rattle.vortex_buffer.specs.Mask.{mask_bits};
ghost use Rattle.vortex_array_rows.specs.Kept.{kept_by, kept_in};

use std::alloc::Global;
use vortex_array_lists::ByteLists;
use vortex_buffer::{AllocError, BitBuffer, Mask};

/// The lists whose bit is set in the mask, in their order.
pub fn filter_lists(alloc: Global, lists: &ByteLists, mask: &Mask) -> Result<ByteLists, AllocError>
    requires same_length { length (mask_bits mask.now) ≡ length lists.now }
    ensures ok { IfOk result (λ kept. kept ≡ kept_by (mask_bits mask.now) lists.now) }
{
    match mask {
        Mask::AllTrue(_) => lists.try_clone(alloc),
        Mask::AllFalse(_) => Ok(ByteLists::new(alloc)),
        Mask::Values(bits) => filter_by_words(alloc, lists, bits),
    }
}

// The lists whose bit is set, by groups of 64.
fn filter_by_words(
    alloc: Global,
    lists: &ByteLists,
    bits: &BitBuffer,
) -> Result<ByteLists, AllocError>
    requires same_length { length bits.now ≡ length lists.now }
    ensures ok { IfOk result (λ kept. kept ≡ kept_by bits.now lists.now) }
{
    let mut kept = ByteLists::with_capacity(alloc, bits.count())?;
    for k in 0..lists.len().div_ceil(64) {
        push_runs(&mut kept, lists, 64 * k, bits.word(k))?;
    }
    Ok(kept)
}

// Pushes the lists from `start` on whose bit is set in the word, one run of set bits after another.
#[inline(always)]
fn push_runs(
    kept: &mut ByteLists,
    lists: &ByteLists,
    start: usize,
    word: u64,
) -> Result<(), AllocError>
    requires fits { length lists.now < 2 ^ 64 }
    requires within { start ≤ length lists.now }
    requires word { word < 2 ^ (length lists.now - start) }
    ensures ok { OnOk result (kept.new ≡ kept.old ++ kept_in word (drop start lists.now)) }
{
    let mut rest = word;
    let mut at = start;
    while rest != 0 {
        let skip = rest.trailing_zeros();
        let run = (rest >> skip).trailing_ones();
        let first = at + skip as usize;
        let end = first + run as usize;
        kept.push_part(lists, first, end)?;
        // A run can be the whole word, and no word is shifted by 64 at once.
        rest = ((rest >> skip) >> (run - 1)) >> 1;
        at = end;
    }
    Ok(())
}
