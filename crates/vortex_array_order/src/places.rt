// The places of the least and the greatest value, in one pass.
ghost use Rattle.std.specs.Prelude.{◌≡◌, ◌<◌, ◌≤◌, ◌+◌, ℕ, None, is_some, length, slice_index_or, true};
ghost use Rattle.vortex_array_order.specs.Extremes.{ExtremesOf, GreatestOf, IsFirstValue, LeastOf};
ghost use Rattle.vortex_array_order.specs.Asked.{ExtremesBelow};

use crate::compared::{Compared, Rows};
use crate::nulls::Nulls;

/// The places of the least and of the greatest value of a column.
#[derive(Clone, Copy, Debug, PartialEq, Eq)]
pub struct ExtremePlaces {
    /// The place of the least value.
    pub least: usize,
    /// The place of the greatest value.
    pub greatest: usize,
}

/// The places of the least and of the greatest value, or none where no row is a value.
pub(crate) fn extreme_places<C: Compared>(rows: &Rows<'_, C>) -> Option<ExtremePlaces>
    ensures { ExtremesBelow rows.now (length rows.now) result }
{
    match rows.nulls() {
        Nulls::First(nulls) => {
            if nulls == rows.count() {
                return None;
            }
            Some(places_from(rows, nulls, true))
        }
        Nulls::Behind(first) => Some(places_from(rows, first, false)),
    }
}

// The places where the first value stands here, and all rows behind it are values or any may be null. Compiled into its
// callers, so that rows that are all values are not asked for their nulls.
#[inline(always)]
fn places_from<C: Compared>(rows: &Rows<'_, C>, first: usize, all_values: bool) -> ExtremePlaces
    requires first { IsFirstValue rows.now first }
    requires all_values { all_values ≡ true → (i : ℕ) → first ≤ i → i < length rows.now → is_some (slice_index_or rows.now i None) ≡ true }
    ensures { ExtremesOf rows.now (length rows.now) result.least result.greatest }
{
    let len = rows.count();
    let mut found = ExtremePlaces {
        least: first,
        greatest: first,
    };
    for i in first + 1..len {
        if all_values || rows.is_value(i) {
            found = with_value(rows, found, i);
        }
    }
    found
}

// The places with one more value.
#[inline(always)]
fn with_value<C: Compared>(rows: &Rows<'_, C>, found: ExtremePlaces, i: usize) -> ExtremePlaces
    requires value { is_some (slice_index_or rows.now i None) ≡ true }
    requires found { ExtremesOf rows.now i found.least found.greatest }
    ensures { ExtremesOf rows.now (i + 1) result.least result.greatest }
{
    ExtremePlaces {
        least: lesser(rows, found.least, i),
        greatest: greater(rows, found.greatest, i),
    }
}

// The place of the lesser of the least value so far and the next one.
#[inline(always)]
fn lesser<C: Compared>(rows: &Rows<'_, C>, place: usize, i: usize) -> usize
    requires value { is_some (slice_index_or rows.now i None) ≡ true }
    requires least { LeastOf rows.now i place }
    ensures { LeastOf rows.now (i + 1) result }
{
    if rows.is_below(i, place) {
        return i;
    }
    place
}

// The place of the greater of the greatest value so far and the next one.
#[inline(always)]
fn greater<C: Compared>(rows: &Rows<'_, C>, place: usize, i: usize) -> usize
    requires value { is_some (slice_index_or rows.now i None) ≡ true }
    requires greatest { GreatestOf rows.now i place }
    ensures { GreatestOf rows.now (i + 1) result }
{
    if rows.is_below(place, i) {
        return i;
    }
    place
}
