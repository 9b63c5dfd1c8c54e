//! The row operations on values and on lists of bytes, under C names, so that `bench/rows` can time them beside stock Rust. Each answers how
//! many rows it gave, and the last of them through `last`.
#![tactic(auto)]

ghost use Rattle.std.specs.Prelude.{◌≡◌, ◌≤◌, ◌<◌, ◌*◌, All, length, map};

mod lists;

use std::alloc::Global;
use vortex_array_rows::{filter_items, slice_items, take_items};
use vortex_buffer::{BitBuffer, Buffer, Mask};

// The number of values, and the last of them.
fn told(values: &Buffer<u64>, last: &mut u64) -> usize {
    let len = values.len();
    if len > 0 {
        *last = values.get(len - 1);
    }
    len
}

/// The values whose bit is set.
#[unsafe(no_mangle)]
pub extern "C" fn bench_filter(
    alloc: Global,
    values: &[u64],
    words: &[u64],
    last: &mut u64,
) -> usize
    requires { length values.now ≤ length words.now * 64 }
{
    match Buffer::from_slice(alloc, words) {
        Err(_) => 0,
        Ok(words) => {
            let mask = Mask::from_buffer(BitBuffer::from_words(words, values.len()));
            match filter_items(alloc, values, &mask) {
                Err(_) => 0,
                Ok(kept) => told(&kept, last),
            }
        }
    }
}

/// The values at the places.
#[unsafe(no_mangle)]
pub extern "C" fn bench_take(
    alloc: Global,
    values: &[u64],
    places: &[usize],
    last: &mut u64,
) -> usize
    requires { All (λ place. place < length values.now) (map (λ place. place) places.now) }
{
    match take_items(alloc, values, places) {
        Err(_) => 0,
        Ok(taken) => told(&taken, last),
    }
}

/// The values from one place up to another.
#[unsafe(no_mangle)]
pub extern "C" fn bench_slice(
    alloc: Global,
    values: &[u64],
    start: usize,
    end: usize,
    last: &mut u64,
) -> usize
    requires order { start ≤ end }
    requires within { end ≤ length values.now }
{
    match slice_items(alloc, values, start, end) {
        Err(_) => 0,
        Ok(part) => told(&part, last),
    }
}
