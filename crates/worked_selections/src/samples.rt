// What the cases share: selections by their form and their list, and whether a mask holds what it should.
use std::alloc::{AllocError, Global};
use vortex_buffer::{Buffer, Mask};
use vortex_scan_types::{NotIncreasing, RowMask, Selection, StrictSortedBuffer};

/// The form of a selection.
#[derive(Clone, Copy, Debug, PartialEq, Eq)]
pub(crate) enum Form {
    All,
    Only,
    But,
}

/// Each form.
pub(crate) const FORMS: [Form; 3] = [Form::All, Form::Only, Form::But];

/// Why there is no selection.
#[derive(Clone, Copy, Debug, PartialEq, Eq)]
pub(crate) enum Unlisted {
    Memory,
    Order(usize, usize),
}

impl From<AllocError> for Unlisted {
    fn from(_error: AllocError) -> Unlisted {
        Unlisted::Memory
    }
}

impl From<NotIncreasing> for Unlisted {
    fn from(error: NotIncreasing) -> Unlisted {
        Unlisted::Order(error.first, error.second)
    }
}

/// A list of these places.
pub(crate) fn listed_of(
    alloc: Global,
    places: &[u64],
) -> Result<StrictSortedBuffer<u64>, Unlisted> {
    let places = Buffer::from_slice(alloc, places)?;
    Ok(StrictSortedBuffer::try_new(places)?)
}

/// A selection of this form by these places.
pub(crate) fn selection_of(
    alloc: Global,
    form: Form,
    places: &[u64],
) -> Result<Selection, Unlisted> {
    match form {
        Form::All => Ok(Selection::All),
        Form::Only => Ok(Selection::IncludeByIndex(listed_of(alloc, places)?)),
        Form::But => Ok(Selection::ExcludeByIndex(listed_of(alloc, places)?)),
    }
}

/// Whether the mask's bits from the first row on are set exactly at the places, or, where these are unset ones, at all others.
pub(crate) fn sets(mask: &Mask, first: u64, places: &[u64], set: bool) -> bool {
    let mut place = first;
    for i in 0..mask.len() {
        if mask.value(i) != (places.contains(&place) == set) {
            return false;
        }
        place = place.saturating_add(1);
    }
    true
}

/// Whether the mask has these rows, and its bits are set, or unset, exactly at the places.
pub(crate) fn holds(rows: &RowMask, start: u64, end: u64, places: &[u64], set: bool) -> bool {
    let range = rows.row_range();
    range.start == start && range.end == end && sets(rows.mask(), start, places, set)
}

/// Whether the selection is of this form, by these places.
pub(crate) fn are_places(selection: &Selection, form: Form, places: &[u64]) -> bool {
    match selection {
        Selection::All => form == Form::All,
        Selection::IncludeByIndex(listed) => form == Form::Only && listed.as_slice() == places,
        Selection::ExcludeByIndex(listed) => form == Form::But && listed.as_slice() == places,
    }
}
