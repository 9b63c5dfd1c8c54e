// Buffers, items and bits.
use crate::samples::{BOTH, HALF, LENGTHS, NONE, NOT_HALF, OTHER, are_words, bit, bits_of};
use std::alloc::Global;
use vortex_buffer::{BitBuffer, Buffer, Items};

fn holds_seven(buffer: &Buffer<u32>) -> bool {
    buffer.len() == 1
        && !buffer.is_empty()
        && buffer.get(0) == 7
        && buffer.as_slice() == [7].as_slice()
}

fn copy_holds_seven(alloc: Global, buffer: &Buffer<u32>) -> bool {
    match buffer.try_clone(alloc) {
        Ok(copy) => holds_seven(&copy),
        Err(_) => false,
    }
}

fn items_hold_seven(seven: Buffer<u32>) -> bool {
    let items = Items::from_vec(seven.into_vec());
    let before = items.len() == 1 && !items.is_empty() && items.as_slice() == [7].as_slice();
    let back = Buffer::from_vec(items.into_vec());
    before && holds_seven(&back)
}

fn seven_is_held(alloc: Global) -> bool {
    match Buffer::from_slice(alloc, &[7u32]) {
        Ok(seven) => {
            let copied = copy_holds_seven(alloc, &seven);
            items_hold_seven(seven) && copied
        }
        Err(_) => false,
    }
}

fn items_are_less(less: Buffer<u32>, more: Buffer<u32>) -> bool {
    let less = Items::from_vec(less.into_vec());
    let more = Items::from_vec(more.into_vec());
    less.cmp(&more).is_lt() && less < more && less != more && more == more
}

fn seven_comes_first(alloc: Global) -> bool {
    match (
        Buffer::from_slice(alloc, &[7u32]),
        Buffer::from_slice(alloc, &[7u32, 0]),
    ) {
        (Ok(less), Ok(more)) => items_are_less(less, more),
        _ => false,
    }
}

// The bits that either `HALF` or `OTHER` has.
const EITHER: [u64; 4] = [
    0xffff_ffff_7f4a_7c15,
    0xbf58_476d_1ce4_e5b9,
    u64::MAX,
    0x5555_5555_5555_5555,
];

fn joins(alloc: Global, half: &BitBuffer, other: &BitBuffer) -> bool {
    if half.len() != other.len() {
        return false;
    }
    let both = match half.and(alloc, other) {
        Ok(bits) => are_words(&bits, &BOTH, half.len()),
        Err(_) => false,
    };
    let either = match half.or(alloc, other) {
        Ok(bits) => are_words(&bits, &EITHER, half.len()),
        Err(_) => false,
    };
    both && either
}

fn joins_other(alloc: Global, half: &BitBuffer) -> bool {
    match bits_of(alloc, &OTHER, half.len()) {
        Ok(other) => joins(alloc, half, &other),
        Err(_) => false,
    }
}

fn turns_over(alloc: Global, half: &BitBuffer) -> bool {
    let not = match half.not(alloc) {
        Ok(bits) => are_words(&bits, &NOT_HALF, half.len()),
        Err(_) => false,
    };
    let copy = match half.try_clone(alloc) {
        Ok(bits) => are_words(&bits, &HALF, half.len()),
        Err(_) => false,
    };
    not && copy
}

fn bits_are_held(alloc: Global, len: usize) -> bool {
    let none = match BitBuffer::new_unset(alloc, len) {
        Ok(bits) => are_words(&bits, &NONE, len),
        Err(_) => false,
    };
    let half = match bits_of(alloc, &HALF, len) {
        Ok(half) => {
            are_words(&half, &HALF, len) && turns_over(alloc, &half) && joins_other(alloc, &half)
        }
        Err(_) => false,
    };
    none && half
}

// Puts the bits of `HALF` between two places behind others.
fn push_half(bits: &mut BitBuffer, from: usize, to: usize) -> bool {
    for i in from..to {
        if bits.push(bit(&HALF, i)).is_err() {
            return false;
        }
    }
    true
}

fn keeps_first(bits: &mut BitBuffer, kept: usize) -> bool {
    if kept > bits.len() {
        return false;
    }
    bits.truncate(kept);
    are_words(bits, &HALF, kept)
}

// Whether bits are pushed one by one, kept up to a place, and pushed again from there on.
fn bits_grow(alloc: Global, len: usize, kept: usize) -> bool {
    match BitBuffer::new_unset(alloc, 0) {
        Ok(mut bits) => {
            push_half(&mut bits, 0, len)
                && are_words(&bits, &HALF, len)
                && keeps_first(&mut bits, kept)
                && push_half(&mut bits, kept, len)
                && are_words(&bits, &HALF, len)
        }
        Err(_) => false,
    }
}

#[test]
fn bits_are_pushed_and_kept_about_the_ends_of_words(rt: HostRuntime) {
    for len in LENGTHS {
        for kept in LENGTHS {
            if kept <= len {
                assert!(rt; bits_grow(rt.alloc(), len, kept), "{kept} of {len} bits");
            }
        }
    }
}

#[test]
fn buffers_items_and_bits_hold_their_values(rt: HostRuntime) {
    assert!(rt; seven_is_held(rt.alloc()));
    assert!(rt; seven_comes_first(rt.alloc()));
    for len in LENGTHS {
        assert!(rt; bits_are_held(rt.alloc(), len), "{len} bits");
    }
}
