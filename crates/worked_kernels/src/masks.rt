// Masks of each form.
use crate::samples::{ALL, BOTH, HALF, LENGTHS, NONE, NOT_HALF, OTHER, bit, mask_of};
use std::alloc::Global;
use vortex_buffer::Mask;

// Whether a mask of so many rows keeps those whose bit is set, and no other.
fn keeps(mask: &Mask, words: &[u64; 4], len: usize) -> bool {
    let mut kept = 0usize;
    for i in 0..mask.len() {
        if mask.value(i) != bit(words, i) {
            return false;
        }
        kept = kept.saturating_add(bit(words, i) as usize);
    }
    mask.len() == len
        && mask.true_count() == kept
        && mask.all_true() == (kept == len)
        && mask.all_false() == (kept == 0)
}

fn turns_over(alloc: Global, mask: &Mask, words: &[u64; 4], not: &[u64; 4]) -> bool {
    let turned = match mask.not(alloc) {
        Ok(turned) => keeps(&turned, not, mask.len()),
        Err(_) => false,
    };
    let copied = match mask.try_clone(alloc) {
        Ok(copy) => keeps(&copy, words, mask.len()),
        Err(_) => false,
    };
    turned && copied
}

fn both_keep(alloc: Global, left: &Mask, right: &Mask, want: &[u64; 4]) -> bool {
    if left.len() != right.len() {
        return false;
    }
    match left.and(alloc, right) {
        Ok(joined) => keeps(&joined, want, left.len()),
        Err(_) => false,
    }
}

fn joins(alloc: Global, left: &Mask, others: &[u64; 4], want: &[u64; 4]) -> bool {
    match mask_of(alloc, others, left.len()) {
        Ok(right) => both_keep(alloc, left, &right, want),
        Err(_) => false,
    }
}

// Masks of each form and the other rows, masks of each form to be joined with them, and the rows that both keep.
const CASES: [([u64; 4], [u64; 4], [u64; 4], [u64; 4]); 9] = [
    (ALL, NONE, ALL, ALL),
    (ALL, NONE, NONE, NONE),
    (ALL, NONE, HALF, HALF),
    (NONE, ALL, ALL, NONE),
    (NONE, ALL, NONE, NONE),
    (NONE, ALL, HALF, NONE),
    (HALF, NOT_HALF, ALL, HALF),
    (HALF, NOT_HALF, NONE, NONE),
    (HALF, NOT_HALF, OTHER, BOTH),
];

fn keeps_each(alloc: Global, len: usize) -> bool {
    for (words, not, others, both) in CASES.iter() {
        let kept = match mask_of(alloc, words, len) {
            Ok(mask) => {
                keeps(&mask, words, len)
                    && turns_over(alloc, &mask, words, not)
                    && joins(alloc, &mask, others, both)
            }
            Err(_) => false,
        };
        if !kept {
            return false;
        }
    }
    true
}

// A mask of 65 rows that keeps three.
fn keeps_indices(alloc: Global) -> bool {
    match Mask::from_indices(alloc, 65, &[64, 0, 5]) {
        Ok(mask) => keeps(&mask, &[0b100001, 1, 0, 0], 65),
        Err(_) => false,
    }
}

#[test]
fn masks_of_each_form_keep_their_rows(rt: HostRuntime) {
    assert!(rt; keeps_indices(rt.alloc()));
    for len in LENGTHS {
        assert!(rt; keeps_each(rt.alloc(), len), "{len} rows");
    }
}
