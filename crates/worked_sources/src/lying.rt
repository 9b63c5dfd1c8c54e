// A source that gives listed completions.
use crate::samples::{Cell, Told, asked_polls_as, cells, chunk, one, polls_as, wait};
use std::alloc::{AllocError, Global};
use std::test::Fail;
use vortex_io::{
    Arrive, Completion, IoOwnerId, IoRequestId, IoResult, IoSource, IoTarget, Lie, LyingSource,
    MemorySource, Order,
};

// The number of splits for owner 1, at a call and under a number.
fn lie(call: u64, request: u64, size: u64) -> Lie<Cell> {
    Lie {
        call,
        completion: Completion {
            owner: IoOwnerId(1),
            request: IoRequestId(request),
            result: IoResult::Size(size),
        },
    }
}

// A source in memory that lies at calls 1 and 3, twice at the first: of the numbers 0 and 7.
fn lying(alloc: Global) -> Result<LyingSource<MemorySource<Cell>>, AllocError> {
    let inner = cells(alloc, Arrive::OnPoll(Order::First))?;
    let lies = Vec::from_array(alloc, [lie(1, 0, 3), lie(3, 7, 9), lie(1, 5, 5)])?;
    Ok(LyingSource::new(alloc, inner, lies))
}

// Whether polls give the lies at their calls, and at the others what the source inside gives.
fn lies_at_calls(alloc: Global) -> Result<bool, AllocError> {
    let mut source = lying(alloc)?;
    let batch = one(alloc, 0, chunk(1, 1))?;
    let expected = [
        Told::Given(1, 0, 21),
        Told::Given(1, 0, 3),
        Told::Nothing,
        Told::Given(1, 7, 9),
        Told::Nothing,
    ];
    Ok(asked_polls_as(&mut source, 1, batch, &expected))
}

#[test]
fn a_listed_call_gives_the_first_lie_that_names_it(rt: HostRuntime) -> Result<(), Fail> {
    assert!(rt; lies_at_calls(rt.alloc())?);
    Ok(())
}

// Whether a lie about what is outstanding leaves it to the source inside, which gives it later.
fn gives_it_later(alloc: Global) -> Result<bool, AllocError> {
    let mut source = lying(alloc)?;
    let nothing = polls_as(&mut source, &[Told::Nothing]);
    let batch = one(alloc, 0, IoTarget::Size)?;
    if source.submit(IoOwnerId(1), batch).is_err() {
        return Ok(false);
    }
    let lied = wait(&mut source) == Told::Given(1, 0, 3);
    Ok(nothing && lied && polls_as(&mut source, &[Told::Given(1, 0, 2), Told::Given(1, 7, 9)]))
}

#[test]
fn polls_and_waits_are_numbered_together(rt: HostRuntime) -> Result<(), Fail> {
    assert!(rt; gives_it_later(rt.alloc())?);
    Ok(())
}

// Whether what is given up here is given up by the source inside.
fn gives_up(alloc: Global) -> Result<bool, AllocError> {
    let mut source = lying(alloc)?;
    let (left, right) = (one(alloc, 2, IoTarget::Size)?, one(alloc, 2, chunk(0, 0))?);
    let taken = source.submit(IoOwnerId(1), left).is_ok()
        && source.submit(IoOwnerId(2), right).is_ok();
    source.release(IoOwnerId(1));
    let released = polls_as(&mut source, &[Told::Given(2, 2, 10)]);
    source.clear();
    Ok(taken && released && polls_as(&mut source, &[Told::Given(1, 0, 3), Told::Nothing]))
}

#[test]
fn what_is_given_up_is_given_up_inside(rt: HostRuntime) -> Result<(), Fail> {
    assert!(rt; gives_up(rt.alloc())?);
    Ok(())
}
