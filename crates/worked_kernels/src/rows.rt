// Values, bits and lists of bytes that are cut out, kept and taken, and the first bit that is set.
use crate::lists;
use crate::samples::{
    ALL, HALF, NONE, PARTS, are_values_at, bit, bits_of, lanes_of, mask_of, places_from, set_places,
};
use std::alloc::Global;
use vortex_array_rows::{
    RowIndex, filter_bits, filter_items, first_set, places_below, set_places_below, slice_bits,
    slice_items, take_bits, take_bits_or, take_items, take_items_or,
};
use vortex_buffer::{BitBuffer, Mask};

// Whether these are the bits at the places of the first words, and false where there are fewer bits.
fn are_bits_at<P: RowIndex>(given: &BitBuffer, bits: &BitBuffer, places: &[P]) -> bool {
    if given.len() != places.len() {
        return false;
    }
    for i in 0..places.len() {
        let place = places[i].place();
        if given.value(i) != (place < bits.len() && bit(&HALF, place)) {
            return false;
        }
    }
    true
}

fn cuts(alloc: Global, values: &[u64], bits: &BitBuffer, start: usize, end: usize) -> bool {
    if start > end || end > values.len() || end > bits.len() || end > 200 {
        return false;
    }
    let of_values = match slice_items(alloc, values, start, end) {
        Ok(part) => part.as_slice() == &values[start..end],
        Err(_) => false,
    };
    let of_bits = match slice_bits(alloc, bits, start, end) {
        Ok(part) => are_bits_at(&part, bits, &places_from(start)[..end - start]),
        Err(_) => false,
    };
    of_values && of_bits
}

fn keeps_places(
    alloc: Global,
    values: &[u64],
    bits: &BitBuffer,
    mask: &Mask,
    places: &[usize],
) -> bool {
    if values.len() != mask.len() || bits.len() != mask.len() {
        return false;
    }
    let of_values = match filter_items(alloc, values, mask) {
        Ok(kept) => are_values_at(kept.as_slice(), values, places),
        Err(_) => false,
    };
    let of_bits = match filter_bits(alloc, bits, mask) {
        Ok(kept) => are_bits_at(&kept, bits, places),
        Err(_) => false,
    };
    of_values && of_bits
}

fn keeps(alloc: Global, bits: &BitBuffer, mask: &Mask, words: &[u64; 4]) -> bool {
    let len = bits.len().min(200);
    let values = lanes_of(200, 200);
    let (places, count) = set_places(words, len);
    keeps_places(alloc, &values[..len], bits, mask, &places[..count.min(200)])
}

// Whether the rows are kept by masks of each form.
fn keeps_each(alloc: Global, bits: &BitBuffer) -> bool {
    for words in [ALL, NONE, HALF] {
        let kept = match mask_of(alloc, &words, bits.len()) {
            Ok(mask) => keeps(alloc, bits, &mask, &words),
            Err(_) => false,
        };
        if !kept {
            return false;
        }
    }
    true
}

fn are_cut(alloc: Global, len: usize, start: usize, end: usize) -> bool {
    let values = lanes_of(200, 200);
    match bits_of(alloc, &HALF, len) {
        Ok(bits) => {
            cuts(alloc, &values[..len.min(200)], &bits, start, end) && keeps_each(alloc, &bits)
        }
        Err(_) => false,
    }
}

// Whether values are taken at places that are all inside, and at places of which the null ones alone are past the end.
fn takes_values<P: RowIndex>(
    alloc: Global,
    values: &[u64],
    inside: &[P],
    past: &[P],
    valid: &BitBuffer,
) -> bool {
    if !places_below(inside, values.len()) || places_below(past, values.len()) {
        return false;
    }
    if past.len() != valid.len() || !set_places_below(past, valid, values.len()) {
        return false;
    }
    let taken = match take_items(alloc, values, inside) {
        Ok(taken) => are_values_at(taken.as_slice(), values, inside),
        Err(_) => false,
    };
    let or = match take_items_or(alloc, values, past, valid, 9) {
        Ok(taken) => are_values_at(taken.as_slice(), values, past),
        Err(_) => false,
    };
    taken && or
}

fn takes_bits(alloc: Global, bits: &BitBuffer, inside: &[u16], past: &[u16]) -> bool {
    if !places_below(inside, bits.len()) || places_below(past, bits.len()) {
        return false;
    }
    if past.len() != bits.len() || !set_places_below(past, bits, bits.len()) {
        return false;
    }
    let taken = match take_bits(alloc, bits, inside) {
        Ok(taken) => are_bits_at(&taken, bits, inside),
        Err(_) => false,
    };
    let or = match take_bits_or(alloc, bits, past, bits) {
        Ok(taken) => are_bits_at(&taken, bits, past),
        Err(_) => false,
    };
    taken && or
}

// Places of each width.
fn takes_each(alloc: Global, values: &[u64], valid: &BitBuffer) -> bool {
    takes_values(alloc, values, &[3u8, 1, 0], &[3, 4, 0], valid)
        && takes_values(alloc, values, &[3u16, 1, 0], &[3, 4, 0], valid)
        && takes_values(alloc, values, &[3u32, 1, 0], &[3, 4, 0], valid)
        && takes_values(alloc, values, &[3u64, 1, 0], &[3, 4, 0], valid)
        && takes_values(alloc, values, &[3usize, 1, 0], &[3, 4, 0], valid)
}

// Whether rows are taken at three places, of which the second is null where a null counts.
fn are_taken(alloc: Global) -> bool {
    match bits_of(alloc, &HALF, 3) {
        Ok(valid) => {
            takes_each(alloc, &[10, 20, 30, 40], &valid)
                && takes_bits(alloc, &valid, &[2, 1, 2], &[2, 9, 0])
                && lists::are_taken(alloc, &valid)
        }
        Err(_) => false,
    }
}

// Words, how many of their bits there are, and the place of the first that is set.
const FIRSTS: [([u64; 4], usize, Option<usize>); 6] = [
    ([1, 0, 0, 0], 0, None),
    ([0b1100, 0, 0, 0], 64, Some(2)),
    ([1 << 63, 1, 0, 0], 65, Some(63)),
    ([0, 1, 0, 0], 65, Some(64)),
    ([0, 2, 0, 0], 65, None),
    ([0, 0, 0, 1 << 63], 256, Some(255)),
];

fn finds(alloc: Global, words: &[u64; 4], len: usize, want: Option<usize>) -> bool {
    match bits_of(alloc, words, len) {
        Ok(bits) => first_set(&bits) == want,
        Err(_) => false,
    }
}

#[test]
fn rows_are_cut_kept_taken_and_found(rt: HostRuntime) {
    let alloc = rt.alloc();
    assert!(rt; are_taken(alloc));
    for (len, start, end) in PARTS.iter() {
        let cut = are_cut(alloc, *len, *start, *end) && lists::are_cut(alloc, *len, *start, *end);
        assert!(rt; cut, "{start} to {end} of {len}");
    }
    for (words, len, want) in FIRSTS.iter() {
        assert!(rt; finds(alloc, words, *len, *want), "{len} bits");
    }
}

#[test]
fn lists_stand_as_their_bytes_do(rt: HostRuntime) {
    for i in 0..15usize {
        for j in 0..15usize {
            assert!(rt; lists::stand(rt.alloc(), i, j), "list {i} and list {j}");
        }
    }
}
