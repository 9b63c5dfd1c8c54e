// Lists of bytes that are pushed, copied, cut out, kept and taken.
use crate::samples::{ALL, HALF, NONE, mask_of, places_from, set_places};
use std::alloc::{AllocError, Global};
use vortex_array_lists::{ByteLists, front_of};
use vortex_array_rows::{filter_lists, places_below, set_places_below, take_lists, take_lists_or};
use vortex_buffer::{BitBuffer, Mask};

// So many lists of none to three bytes.
fn short_lists(alloc: Global, len: usize) -> Result<ByteLists, AllocError> {
    let mut lists = ByteLists::new(alloc);
    for i in 0..len {
        let bytes = [(i % 251) as u8; 3];
        lists.push(&bytes[..i % 4])?;
    }
    Ok(lists)
}

// Whether the lists are the short ones at the places, and empty where there are no so many short ones.
fn are_short(lists: &ByteLists, places: &[usize], count: usize) -> bool {
    if lists.len() != places.len() || lists.is_empty() != places.is_empty() {
        return false;
    }
    for i in 0..places.len() {
        let place = places[i];
        let bytes = [(place % 251) as u8; 3];
        let expected = if place < count {
            &bytes[..place % 4]
        } else {
            &bytes[..0]
        };
        if lists.get(i) != expected {
            return false;
        }
    }
    true
}

// Whether lists are copied, and those from a start to an end cut out.
fn copies(alloc: Global, lists: &ByteLists, start: usize, end: usize) -> bool {
    let len = lists.len();
    if start > end || end > len || len > 200 {
        return false;
    }
    let all = places_from(0);
    let copied = match lists.try_clone(alloc) {
        Ok(copy) => are_short(lists, &all[..len], len) && are_short(&copy, &all[..len], len),
        Err(_) => false,
    };
    let cut = match lists.slice(alloc, start, end) {
        Ok(part) => are_short(&part, &places_from(start)[..end - start], end),
        Err(_) => false,
    };
    copied && cut
}

fn keeps(alloc: Global, lists: &ByteLists, mask: &Mask, words: &[u64; 4]) -> bool {
    if lists.len() != mask.len() {
        return false;
    }
    let (places, count) = set_places(words, lists.len());
    match filter_lists(alloc, lists, mask) {
        Ok(kept) => are_short(&kept, &places[..count.min(200)], lists.len()),
        Err(_) => false,
    }
}

// Whether the lists are kept by masks of each form.
fn keeps_each(alloc: Global, lists: &ByteLists) -> bool {
    for words in [ALL, NONE, HALF] {
        let kept = match mask_of(alloc, &words, lists.len()) {
            Ok(mask) => keeps(alloc, lists, &mask, &words),
            Err(_) => false,
        };
        if !kept {
            return false;
        }
    }
    true
}

/// Whether so many lists are copied, cut out from a start to an end, and kept.
pub(crate) fn are_cut(alloc: Global, len: usize, start: usize, end: usize) -> bool {
    match short_lists(alloc, len) {
        Ok(lists) => copies(alloc, &lists, start, end) && keeps_each(alloc, &lists),
        Err(_) => false,
    }
}

// Whether lists are taken at places, and an empty one where a place is null.
fn takes(alloc: Global, lists: &ByteLists, valid: &BitBuffer) -> bool {
    let inside = [2u32, 3, 2];
    let past = [3u32, 9, 1];
    if !places_below(&inside, lists.len()) || places_below(&past, lists.len()) {
        return false;
    }
    if valid.len() != 3 || !set_places_below(&past, valid, lists.len()) {
        return false;
    }
    let taken = match take_lists(alloc, lists, &inside) {
        Ok(taken) => are_short(&taken, &[2, 3, 2], 4),
        Err(_) => false,
    };
    let or = match take_lists_or(alloc, lists, &past, valid) {
        Ok(taken) => are_short(&taken, &[3, 9, 1], 4),
        Err(_) => false,
    };
    taken && or
}

/// Whether lists are taken at three places of which the second is null, and at places of which none is.
pub(crate) fn are_taken(alloc: Global, valid: &BitBuffer) -> bool {
    match short_lists(alloc, 4) {
        Ok(lists) => takes(alloc, &lists, valid),
        Err(_) => false,
    }
}

// Lists of bytes, each before the next one: they end, differ or go on within the first eight bytes, at their end or behind it.
const ASCENDING: [&str; 15] = [
    "",
    "\0",
    "\0\0\0\0\0\0\0\0",
    "\0\0\0\0\0\0\0\0\0",
    "a",
    "a\0",
    "east",
    "northeast",
    "northeastern",
    "northwes",
    "northwest",
    "northwestern",
    "northwestern parts",
    "west",
    "\u{ff}",
];

fn ascending(alloc: Global) -> Result<ByteLists, AllocError> {
    let mut lists = ByteLists::new(alloc);
    for text in ASCENDING.iter() {
        lists.push(text.as_bytes())?;
    }
    Ok(lists)
}

// Whether list `i` stands to list `j` and to its bytes as their places do.
fn stands(lists: &ByteLists, i: usize, j: usize) -> bool {
    if i >= lists.len() || j >= lists.len() {
        return false;
    }
    let other = lists.get(j);
    let front = front_of(other);
    let order = i.cmp(&j);
    lists.front(j) == front
        && lists.compare(i, lists, j) == order
        && lists.compare_with(i, other, front) == order
        && lists.equals(i, lists, j) == (i == j)
        && lists.equals_with(i, other, front) == (i == j)
}

/// Whether two lists of bytes of which each stands before the next stand as their places do.
pub(crate) fn stand(alloc: Global, i: usize, j: usize) -> bool {
    match ascending(alloc) {
        Ok(lists) => lists.len() == 15 && stands(&lists, i, j),
        Err(_) => false,
    }
}
