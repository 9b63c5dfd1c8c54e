// How many rows a selection chooses of a number of them and of a range, and copies of selections.
use crate::samples::{FORMS, Form, Unlisted, are_places, selection_of};
use std::alloc::Global;
use vortex_scan_types::Selection;

// The first count of places of a range that is not answered.
fn first_miscounted(alloc: Global) -> Result<Option<u64>, Unlisted> {
    let cases = [
        (Form::Only, (2, 8), 3),
        (Form::But, (2, 8), 3),
        (Form::All, (2, 8), 6),
        (Form::Only, (0, u64::MAX), 5),
        (Form::But, (0, u64::MAX), u64::MAX - 5),
        (Form::All, (0, u64::MAX), u64::MAX),
        (Form::Only, (9, 10), 1),
        (Form::Only, (10, 1 << 40), 0),
        (Form::But, (10, 1 << 40), (1 << 40) - 10),
    ];
    for (form, (start, end), count) in cases {
        let selection = selection_of(alloc, form, &[1, 3, 5, 7, 9])?;
        if selection.row_count_in_range(&(start..end)) != count {
            return Ok(Some(count));
        }
    }
    Ok(None)
}

#[test]
fn places_of_a_range_are_counted(rt: HostRuntime) {
    assert_eq!(rt; first_miscounted(rt.alloc()), Ok(None));
}

// The first total of which another number of rows is counted.
fn first_wrong_total(alloc: Global) -> Result<Option<u64>, Unlisted> {
    let cases = [
        (Form::All, 5, 5),
        (Form::Only, 5, 3),
        (Form::But, 5, 2),
        (Form::But, 3, 0),
        (Form::But, 2, 0),
        (Form::Only, 0, 3),
    ];
    for (form, total, count) in cases {
        if selection_of(alloc, form, &[0, 2, 9])?.row_count(total) != count {
            return Ok(Some(total));
        }
    }
    Ok(None)
}

#[test]
fn rows_are_counted_by_the_length_of_the_list(rt: HostRuntime) {
    assert_eq!(rt; first_wrong_total(rt.alloc()), Ok(None));
}

// Whether a copy of a selection has its form and its list.
fn copies(alloc: Global, form: Form) -> Result<bool, Unlisted> {
    let selection = selection_of(alloc, form, &[1, 3])?;
    let copy = selection.try_clone(alloc)?;
    Ok(are_places(&copy, form, &[1, 3]) && are_places(&selection, form, &[1, 3]))
}

// Whether this is so of each form.
fn copies_each(alloc: Global) -> Result<bool, Unlisted> {
    for form in FORMS {
        if !copies(alloc, form)? {
            return Ok(false);
        }
    }
    Ok(true)
}

#[test]
fn copies_of_selections_have_the_same_form_and_list(rt: HostRuntime) {
    assert_eq!(rt; copies_each(rt.alloc()), Ok(true));
}

#[test]
fn the_default_selects_all(rt: HostRuntime) {
    assert!(rt; are_places(&Selection::default(), Form::All, &[]));
}
