// Which places are chosen.
ghost use Rattle.std.specs.Prelude.{◌≡◌, ◌<◌, ◌≤◌, [], length, IfOk, IfErr};
ghost use Rattle.vortex_buffer.specs.Mask.{mask_bits};
ghost use Rattle.vortex_scan_types.specs.Members.{bits_in_range, count_in_range, count_of_total};
ghost use Rattle.vortex_scan_types.specs.RowMasks.{IsRowMask};
ghost use Rattle.vortex_scan_types.specs.Sorted.{DescendsAt, FirstDescent, Increases, IncreasesBelow};

use crate::listed::{listed_count, mask_start, places_in};
use crate::listed_masks::{listed_mask, other_mask};
use crate::row_mask::RowMask;
use std::alloc::{AllocError, Global};
use std::error::Error;
use std::fmt;
use std::fmt::Display;
use std::marker::Model;
use std::ops::Range;
use vortex_buffer::{Buffer, Mask};

/// Items in strictly ascending order. Contracts see their list.
pub struct StrictSortedBuffer<T: Ord + Copy> {
    items: Buffer<T>,
}

impl<T: Ord + Copy> Drop for StrictSortedBuffer<T> {
    fn drop(self) {
        let StrictSortedBuffer { items: _items } = self;
    }
}

impl<T: Ord + Copy> Model for StrictSortedBuffer<T> {
    ghost use Rattle.std.specs.Prelude.{List};
    ghost use Rattle.vortex_scan_types.specs.Sorted.{Increases};

    ghost Value = { List T };

    ghost view = { λ b. b.items };

    ghost invariant = { λ b. Increases T.cmp b.items };
}

/// The first neighbours that do not increase strictly.
#[derive(Clone, Copy, Debug, PartialEq, Eq)]
pub struct NotIncreasing {
    pub first: usize,
    pub second: usize,
}

impl Display for NotIncreasing {
    ghost use Rattle.std.specs.Prelude.{Some};
    ghost use Rattle.vortex_scan_types.specs.Sorted.{refusal_text};

    ghost output = { λ e. Some (refusal_text e.first e.second) };

    fn fmt<W: fmt::Write>(&self, f: &mut fmt::Formatter<W>) -> fmt::Result {
        let first = self.first;
        let second = self.second;
        write!(
            f,
            "buffer values must be strictly increasing at positions {first} and {second}"
        )
    }
}

impl Error for NotIncreasing {}

// Where items in strictly ascending order end, or the list's length.
fn ascending_len<T: Ord + Copy>(items: &[T]) -> usize
    ensures within { result ≤ length items.now }
    ensures ascends { IncreasesBelow T.cmp items.now result }
    ensures ends { result < length items.now → (0 < result) × DescendsAt T.cmp items.now result }
{
    for i in 1..items.len() {
        if !items[i - 1].cmp(&items[i]).is_lt() {
            return i;
        }
    }
    items.len()
}

impl<T: Ord + Copy> StrictSortedBuffer<T> {
    /// These items, refused exactly at the first neighbours that do not increase strictly.
    pub fn try_new(buffer: Buffer<T>) -> Result<StrictSortedBuffer<T>, NotIncreasing>
        ensures ok { IfOk result (λ b. b ≡ buffer) }
        ensures increases { IfOk result (λ _. Increases T.cmp buffer) }
        ensures err { IfErr result (λ e. FirstDescent T.cmp buffer e.first e.second) }
    {
        let end = ascending_len(buffer.as_slice());
        if end < buffer.len() {
            return Err(NotIncreasing {
                first: end - 1,
                second: end,
            });
        }
        Ok(StrictSortedBuffer { items: buffer })
    }

    /// No items. It takes no memory.
    pub fn empty(alloc: Global) -> StrictSortedBuffer<T>
        ensures { result ≡ [] }
    {
        StrictSortedBuffer {
            items: Buffer::from_vec(Vec::new(alloc)),
        }
    }

    /// These items, which increase strictly. Nothing is tested.
    pub fn new_unchecked(buffer: Buffer<T>) -> StrictSortedBuffer<T>
        requires { Increases T.cmp buffer }
        ensures { result ≡ buffer }
    {
        StrictSortedBuffer { items: buffer }
    }

    /// The items in a buffer. It takes no memory.
    pub fn into_inner(self) -> Buffer<T>
        ensures { result ≡ self }
    {
        let StrictSortedBuffer { items } = self;
        items
    }

    /// The items, which increase strictly.
    pub fn as_slice(&self) -> &[T]
        ensures items { result.now ≡ self.now }
        ensures increases { Increases T.cmp result.now }
    {
        self.items.as_slice()
    }

    /// A second list of the same items.
    pub fn try_clone(&self, alloc: Global) -> Result<StrictSortedBuffer<T>, AllocError>
        ensures { IfOk result (λ b. b ≡ self.now) }
    {
        let items = self.items.try_clone(alloc)?;
        Ok(StrictSortedBuffer { items })
    }
}

/// Which places are members: all, those listed, or all others.
#[derive(Default)]
pub enum Selection {
    #[default]
    All,
    IncludeByIndex(StrictSortedBuffer<u64>),
    ExcludeByIndex(StrictSortedBuffer<u64>),
}

impl Drop for Selection {
    fn drop(self) {
        match self {
            Selection::All => {}
            Selection::IncludeByIndex(_part) => {}
            Selection::ExcludeByIndex(_part) => {}
        }
    }
}

impl Selection {
    /// How many of so many rows are chosen, by the list's length alone: listed places past the end count as well, and where
    /// they are excluded the answer does not go below 0.
    pub fn row_count(&self, total_rows: u64) -> u64
        ensures { result ≡ count_of_total self.now total_rows }
    {
        match self {
            Selection::All => total_rows,
            Selection::IncludeByIndex(listed) => listed.as_slice().len() as u64,
            Selection::ExcludeByIndex(listed) => {
                total_rows.saturating_sub(listed.as_slice().len() as u64)
            }
        }
    }

    /// How many places of a range are members. It takes no memory, and its time grows with the list's logarithm.
    pub fn row_count_in_range(&self, range: &Range<u64>) -> u64
        ensures { result ≡ count_in_range self.now range.now }
    {
        match self {
            Selection::All => places_in(range),
            Selection::IncludeByIndex(listed) => listed_count(listed.as_slice(), range),
            Selection::ExcludeByIndex(listed) => {
                places_in(range) - listed_count(listed.as_slice(), range)
            }
        }
    }

    // Which places of a range are members, a bit a place.
    fn mask_in_range(&self, alloc: Global, range: &Range<u64>) -> Result<Mask, AllocError>
        ensures { IfOk result (λ mask. mask_bits mask ≡ bits_in_range self.now range.now) }
    {
        match self {
            Selection::All => Ok(Mask::new_true(places_in(range) as usize)),
            Selection::IncludeByIndex(listed) => listed_mask(alloc, listed.as_slice(), range),
            Selection::ExcludeByIndex(listed) => other_mask(alloc, listed.as_slice(), range),
        }
    }

    /// Which places of a range are members: a mask from the range's start on, with a bit a place. A range that is empty or
    /// reversed gives a mask of no rows that begins at 0. It takes the memory of one bit a place, and none where all places of
    /// the range are members, or none is.
    ///
    /// # Errors
    /// `AllocError` where that memory is wanting, as for a range longer than memory.
    pub fn row_mask(&self, alloc: Global, range: &Range<u64>) -> Result<RowMask, AllocError>
        ensures { IfOk result (IsRowMask self.now range.now) }
    {
        let mask = self.mask_in_range(alloc, range)?;
        let row_offset = mask_start(range.start, range.end);
        Ok(RowMask::new(row_offset, mask))
    }

    /// A second selection that is equal.
    pub fn try_clone(&self, alloc: Global) -> Result<Selection, AllocError>
        ensures { IfOk result (λ s. s ≡ self.now) }
    {
        match self {
            Selection::All => Ok(Selection::All),
            Selection::IncludeByIndex(listed) => {
                Ok(Selection::IncludeByIndex(listed.try_clone(alloc)?))
            }
            Selection::ExcludeByIndex(listed) => {
                Ok(Selection::ExcludeByIndex(listed.try_clone(alloc)?))
            }
        }
    }
}
