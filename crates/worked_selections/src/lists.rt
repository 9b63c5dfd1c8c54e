// Lists of places, and why there is none.
use crate::samples::{Unlisted, listed_of};
use std::alloc::Global;
use std::test::Fail;
use vortex_buffer::Buffer;
use vortex_scan_types::{NotIncreasing, StrictSortedBuffer};

// The first neighbours that do not increase, where there are some.
fn refused_at(alloc: Global, places: &[u64]) -> Result<Option<(usize, usize)>, Unlisted> {
    match listed_of(alloc, places) {
        Ok(_) => Ok(None),
        Err(Unlisted::Order(first, second)) => Ok(Some((first, second))),
        Err(error) => Err(error),
    }
}

// The number of items of the first list that is taken or refused otherwise.
fn first_wrong(alloc: Global) -> Result<Option<usize>, Unlisted> {
    for (places, want) in [
        ([].as_slice(), None),
        ([7].as_slice(), None),
        ([1, 3, u64::MAX].as_slice(), None),
        ([1, 1].as_slice(), Some((0, 1))),
        ([3, 1].as_slice(), Some((0, 1))),
        ([0, 3, 1, 1].as_slice(), Some((1, 2))),
    ] {
        if refused_at(alloc, places)? != want {
            return Ok(Some(places.len()));
        }
    }
    Ok(None)
}

#[test]
fn lists_are_refused_at_the_first_neighbours_that_do_not_increase(rt: HostRuntime) {
    assert_eq!(rt; first_wrong(rt.alloc()), Ok(None));
}

// Whether a refusal is told so.
fn says(alloc: Global, first: usize, second: usize, want: &str) -> Result<bool, Fail> {
    let text = NotIncreasing { first, second }.to_string(alloc)?;
    Ok(text.as_str() == want)
}

#[test]
fn a_refusal_names_both_positions(rt: HostRuntime) -> Result<(), Fail> {
    let want = "buffer values must be strictly increasing at positions 0 and 1";
    assert!(rt; says(rt.alloc(), 0, 1, want)?);
    Ok(())
}

// Whether lists that are made untested, copied and given back hold these places.
fn keeps(alloc: Global) -> Result<bool, Unlisted> {
    let listed = listed_of(alloc, &[1, 3])?;
    let copy = listed.try_clone(alloc)?;
    let again = StrictSortedBuffer::new_unchecked(listed.into_inner());
    Ok(copy.as_slice() == [1, 3].as_slice() && again.as_slice() == [1, 3].as_slice())
}

// Whether an empty list holds nothing.
fn is_empty(alloc: Global) -> bool {
    let empty: Buffer<u64> = StrictSortedBuffer::empty(alloc).into_inner();
    empty.is_empty()
}

#[test]
fn lists_hold_their_places(rt: HostRuntime) {
    assert_eq!(rt; keeps(rt.alloc()), Ok(true));
    assert!(rt; is_empty(rt.alloc()));
}
