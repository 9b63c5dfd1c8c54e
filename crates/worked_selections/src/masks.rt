// Row masks of ranges, and how many places of them are members.
use crate::samples::{FORMS, Form, Unlisted, holds, selection_of};
use std::alloc::Global;
use vortex_scan_types::{RowMask, Selection};

// Whether a mask of the range has so many set places as are counted, at these places or at all others.
fn masks(
    alloc: Global,
    selection: &Selection,
    range: (u64, u64),
    places: &[u64],
    set: bool,
) -> Result<bool, Unlisted> {
    let (start, end) = range;
    let rows = selection.row_mask(alloc, &(start..end))?;
    let counted = selection.row_count_in_range(&(start..end));
    Ok(holds(&rows, start, end, places, set) && rows.mask().true_count() as u64 == counted)
}

// Whether the places of a list in a range are these, and those that it leaves out are all others.
fn lists(
    alloc: Global,
    listed: &[u64],
    range: (u64, u64),
    places: &[u64],
) -> Result<bool, Unlisted> {
    let included = selection_of(alloc, Form::Only, listed)?;
    if !masks(alloc, &included, range, places, true)? {
        return Ok(false);
    }
    let excluded = selection_of(alloc, Form::But, listed)?;
    masks(alloc, &excluded, range, places, false)
}

// The first of some ranges in which a list does not hold the places that it should.
fn first_wrong(alloc: Global) -> Result<Option<(u64, u64)>, Unlisted> {
    let cases = [
        ([1, 3, 5, 7, 9].as_slice(), (2, 8), [3, 5, 7].as_slice()),
        ([1, 3, 5, 7].as_slice(), (3, 6), [3, 5].as_slice()),
        ([1, 9].as_slice(), (0, 3), [1].as_slice()),
        ([4, 5, 6].as_slice(), (4, 7), [4, 5, 6].as_slice()),
        ([4, 5, 6].as_slice(), (7, 9), [].as_slice()),
        ([].as_slice(), (0, 70), [].as_slice()),
        ([63].as_slice(), (0, 64), [63].as_slice()),
    ];
    for (listed, range, places) in cases {
        if !lists(alloc, listed, range, places)? {
            return Ok(Some(range));
        }
    }
    Ok(None)
}

// The same of places about the ends of words, and of the last ones.
fn first_wrong_in_words(alloc: Global) -> Result<Option<(u64, u64)>, Unlisted> {
    let listed = [0, 63, 64, 65, 127, 128, u64::MAX - 1, u64::MAX];
    let cases = [
        ((0, 129), [0, 63, 64, 65, 127, 128].as_slice()),
        ((63, 128), [63, 64, 65, 127].as_slice()),
        ((1, 65), [63, 64].as_slice()),
        ((65, 127), [65].as_slice()),
        ((66, 127), [].as_slice()),
        ((u64::MAX - 3, u64::MAX), [u64::MAX - 1].as_slice()),
    ];
    for (range, places) in cases {
        if !lists(alloc, listed.as_slice(), range, places)? {
            return Ok(Some(range));
        }
    }
    Ok(None)
}

#[test]
fn masks_hold_the_listed_places_of_a_range_or_all_others(rt: HostRuntime) {
    assert_eq!(rt; first_wrong(rt.alloc()), Ok(None));
}

#[test]
fn masks_hold_places_about_the_ends_of_words(rt: HostRuntime) {
    assert_eq!(rt; first_wrong_in_words(rt.alloc()), Ok(None));
}

// Whether all places of a range are members where all are.
fn masks_all(alloc: Global) -> Result<bool, Unlisted> {
    for end in [0, 1, 63, 64, 65, 128, 200] {
        if !masks(alloc, &Selection::All, (0, end), &[], false)? {
            return Ok(false);
        }
    }
    masks(alloc, &Selection::All, (u64::MAX - 5, u64::MAX), &[], false)
}

#[test]
fn all_places_are_members_where_all_are(rt: HostRuntime) {
    assert_eq!(rt; masks_all(rt.alloc()), Ok(true));
}

// Whether a range has no place, and its mask has no row and begins at 0.
fn masks_none(
    alloc: Global,
    selection: &Selection,
    start: u64,
    end: u64,
) -> Result<bool, Unlisted> {
    let rows = selection.row_mask(alloc, &(start..end))?;
    Ok(holds(&rows, 0, 0, &[], true) && selection.row_count_in_range(&(start..end)) == 0)
}

// Whether this is so of some ranges without places.
fn masks_nothing(alloc: Global, form: Form) -> Result<bool, Unlisted> {
    let selection = selection_of(alloc, form, &[1, 3, 5, 7])?;
    for (start, end) in [(0, 0), (4, 4), (5, 2), (u64::MAX, 0)] {
        if !masks_none(alloc, &selection, start, end)? {
            return Ok(false);
        }
    }
    Ok(true)
}

#[test]
fn ranges_without_places_give_masks_without_rows(rt: HostRuntime) {
    for form in FORMS {
        assert_eq!(rt; masks_nothing(rt.alloc(), form), Ok(true));
    }
}

// Whether a copy of a mask has its rows and bits.
fn copies(alloc: Global) -> Result<bool, Unlisted> {
    let selection = selection_of(alloc, Form::Only, &[1, 3, 5, 7])?;
    let rows: RowMask = selection.row_mask(alloc, &(3..6))?;
    let copy = rows.try_clone(alloc)?;
    Ok(holds(&copy, 3, 6, &[3, 5], true) && holds(&rows, 3, 6, &[3, 5], true))
}

#[test]
fn copies_of_masks_have_the_same_rows_and_bits(rt: HostRuntime) {
    assert_eq!(rt; copies(rt.alloc()), Ok(true));
}
