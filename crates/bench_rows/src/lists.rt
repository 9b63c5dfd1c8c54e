// Lists of bytes compared with one. Each function makes the lists of what is lent, asks so many times, and answers how often
// the answer was yes. The rows asked begin one later each time, so that no answer is taken for the next.
use std::alloc::{AllocError, Global};
use vortex_array_lists::{ByteLists, front_of};

// The lists that end at these places.
fn lists_of(alloc: Global, bytes: &[u8], ends: &[usize]) -> Result<ByteLists, AllocError> {
    let mut lists = ByteLists::new(alloc);
    let mut start = 0usize;
    for end in ends {
        if start > *end || *end > bytes.len() {
            return Err(AllocError);
        }
        lists.push(&bytes[start..*end])?;
        start = *end;
    }
    Ok(lists)
}

#[inline(never)]
fn count_below(lists: &ByteLists, start: usize, other: &[u8]) -> usize {
    let front = front_of(other);
    let mut count = 0usize;
    for i in start..lists.len() {
        count = count.wrapping_add(lists.compare_with(i, other, front).is_lt() as usize);
    }
    count
}

#[inline(never)]
fn count_equal(lists: &ByteLists, start: usize, other: &[u8]) -> usize {
    let front = front_of(other);
    let mut count = 0usize;
    for i in start..lists.len() {
        count = count.wrapping_add(lists.equals_with(i, other, front) as usize);
    }
    count
}

#[inline(never)]
fn count_below_next(lists: &ByteLists, start: usize) -> usize {
    let mut count = 0usize;
    for i in start..lists.len() {
        let next = if i + 1 < lists.len() { i + 1 } else { 0 };
        count = count.wrapping_add(lists.compare(i, lists, next).is_lt() as usize);
    }
    count
}

#[inline(never)]
fn count_equal_next(lists: &ByteLists, start: usize) -> usize {
    let mut count = 0usize;
    for i in start..lists.len() {
        let next = if i + 1 < lists.len() { i + 1 } else { 0 };
        count = count.wrapping_add(lists.equals(i, lists, next) as usize);
    }
    count
}

fn below_times(lists: &ByteLists, other: &[u8], times: usize) -> usize {
    let mut count = 0usize;
    for start in 0..times {
        count = count.wrapping_add(count_below(lists, start, other));
    }
    count
}

fn equal_times(lists: &ByteLists, other: &[u8], times: usize) -> usize {
    let mut count = 0usize;
    for start in 0..times {
        count = count.wrapping_add(count_equal(lists, start, other));
    }
    count
}

fn below_next_times(lists: &ByteLists, times: usize) -> usize {
    let mut count = 0usize;
    for start in 0..times {
        count = count.wrapping_add(count_below_next(lists, start));
    }
    count
}

fn equal_next_times(lists: &ByteLists, times: usize) -> usize {
    let mut count = 0usize;
    for start in 0..times {
        count = count.wrapping_add(count_equal_next(lists, start));
    }
    count
}

/// How many lists stand below another.
#[unsafe(no_mangle)]
pub extern "C" fn bench_lists_below(
    alloc: Global,
    bytes: &[u8],
    ends: &[usize],
    other: &[u8],
    times: usize,
) -> usize {
    match lists_of(alloc, bytes, ends) {
        Ok(lists) => below_times(&lists, other, times),
        Err(_) => 0,
    }
}

/// How many lists are equal to another.
#[unsafe(no_mangle)]
pub extern "C" fn bench_lists_equal(
    alloc: Global,
    bytes: &[u8],
    ends: &[usize],
    other: &[u8],
    times: usize,
) -> usize {
    match lists_of(alloc, bytes, ends) {
        Ok(lists) => equal_times(&lists, other, times),
        Err(_) => 0,
    }
}

/// How many lists stand below the next.
#[unsafe(no_mangle)]
pub extern "C" fn bench_lists_below_next(
    alloc: Global,
    bytes: &[u8],
    ends: &[usize],
    times: usize,
) -> usize {
    match lists_of(alloc, bytes, ends) {
        Ok(lists) => below_next_times(&lists, times),
        Err(_) => 0,
    }
}

/// How many lists are equal to the next.
#[unsafe(no_mangle)]
pub extern "C" fn bench_lists_equal_next(
    alloc: Global,
    bytes: &[u8],
    ends: &[usize],
    times: usize,
) -> usize {
    match lists_of(alloc, bytes, ends) {
        Ok(lists) => equal_next_times(&lists, times),
        Err(_) => 0,
    }
}
