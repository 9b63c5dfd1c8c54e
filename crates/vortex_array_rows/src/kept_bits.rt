// The bits that a mask keeps, packed by words of 64 bits.
ghost use Rattle.std.specs.Prelude.{◌≡◌, ◌<◌, ◌≤◌, ◌^◌, IfOk, length};
ghost use Rattle.vortex_buffer.specs.Mask.{mask_bits};
ghost use Rattle.vortex_array_rows.specs.Kept.{kept_by};
ghost use Rattle.vortex_array_rows.specs.Packs.{KeepsOfWord, PacksMore};

use std::alloc::Global;
use vortex_buffer::{AllocError, BitBuffer, Buffer, Mask};

// The open word of bits that are packed, and how many of its bits are in use.
#[derive(Clone, Copy)]
struct OpenWord {
    bits: u64,
    len: u32,
}

/// The bits whose bit is set in the mask, in their order.
pub fn filter_bits(alloc: Global, bits: &BitBuffer, mask: &Mask) -> Result<BitBuffer, AllocError>
    requires same_length { length (mask_bits mask.now) ≡ length bits.now }
    ensures ok { IfOk result (λ kept. kept ≡ kept_by (mask_bits mask.now) bits.now) }
{
    match mask {
        Mask::AllTrue(_) => bits.try_clone(alloc),
        Mask::AllFalse(_) => BitBuffer::new_unset(alloc, 0),
        Mask::Values(set) => filter_by_words(alloc, bits, set),
    }
}

// The bits whose bit is set, word by word.
fn filter_by_words(
    alloc: Global,
    bits: &BitBuffer,
    set: &BitBuffer,
) -> Result<BitBuffer, AllocError>
    requires same_length { length set.now ≡ length bits.now }
    ensures ok { IfOk result (λ kept. kept ≡ kept_by set.now bits.now) }
{
    let count = set.count();
    let mut words = Vec::with_capacity(alloc, count / 64 + 1)?;
    let mut last = OpenWord { bits: 0, len: 0 };
    for k in 0..bits.len().div_ceil(64) {
        let (kept, of_word) = kept_of_word(bits.word(k), set.word(k));
        last = push_bits(&mut words, last, kept, of_word)?;
    }
    words.push(last.bits)?;
    Ok(BitBuffer::from_words(Buffer::from_vec(words), count))
}

// Packs so many bits behind those that the words and the open word hold.
#[inline(always)]
fn push_bits(
    words: &mut Vec<u64>,
    last: OpenWord,
    bits: u64,
    count: u32,
) -> Result<OpenWord, AllocError>
    requires last { last.bits < 2 ^ last.len }
    requires partial { last.len < 64 }
    requires bits { bits < 2 ^ count }
    requires few { count ≤ 64 }
    ensures last { IfOk result (λ next. next.bits < 2 ^ next.len) }
    ensures partial { IfOk result (λ next. next.len < 64) }
    ensures packed { IfOk result (λ next. PacksMore bits count words.old.items last.bits last.len words.new.items next.bits next.len) }
{
    let joined = last.bits as u128 + ((bits as u128) << last.len);
    let low = (joined % (1 << 64)) as u64;
    let len = last.len + count;
    if len < 64 {
        return Ok(OpenWord { bits: low, len });
    }
    words.push(low)?;
    Ok(OpenWord {
        bits: (joined >> 64) as u64,
        len: len - 64,
    })
}

// The bits of a word whose bit is set in another word, packed, and how many they are. It goes from set bit to set bit.
#[inline(always)]
fn kept_of_word(bits: u64, set: u64) -> (u64, u32)
    ensures few { result.1 ≤ 64 }
    ensures small { result.0 < 2 ^ result.1 }
    ensures kept { KeepsOfWord bits set result.0 result.1 }
{
    let mut rest = set;
    let mut at = 0u32;
    let mut packed = 0u64;
    let mut count = 0u32;
    while rest != 0 {
        let skip = rest.trailing_zeros();
        let place = at + skip;
        packed += ((bits >> place) & 1) << count;
        count += 1;
        rest = (rest >> skip) >> 1;
        at = place + 1;
    }
    (packed, count)
}
