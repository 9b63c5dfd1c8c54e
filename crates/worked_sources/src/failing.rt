// A source that fails at listed calls.
use crate::samples::{Cell, Told, cells, one, polls_as};
use std::alloc::{AllocError, Global};
use std::test::Fail;
use vortex_buffer::Buffer;
use vortex_io::{
    Arrive, FailingSource, IoError, IoOwnerId, IoSource, IoTarget, MemorySource, Order,
};

// A source in memory that fails at these calls.
fn failing(alloc: Global, calls: &[u64]) -> Result<FailingSource<MemorySource<Cell>>, AllocError> {
    let inner = cells(alloc, Arrive::OnPoll(Order::First))?;
    Ok(FailingSource::new(inner, Buffer::from_slice(alloc, calls)?))
}

// Whether a batch is taken, four polls answer these, and so many calls failed by the list.
fn fails_as(
    alloc: Global,
    calls: &[u64],
    taken: bool,
    expected: [Told; 4],
    own: u64,
) -> Result<bool, AllocError> {
    let mut source = failing(alloc, calls)?;
    let batch = one(alloc, 6, IoTarget::Size)?;
    let answer = source.submit(IoOwnerId(2), batch);
    let asked = if taken {
        answer == Ok(())
    } else {
        answer == Err(IoError::Fault)
    };
    let noted = source.inner().journal().len() == usize::from(taken);
    let polled = polls_as(&mut source, &expected);
    Ok(asked && noted && polled && source.own_faults() == own && source.inner().faults() == 0)
}

#[test]
fn listed_calls_fail_and_leave_the_source_inside(rt: HostRuntime) -> Result<(), Fail> {
    let given = Told::Given(2, 6, 2);
    let (fault, nothing) = (Told::Fault, Told::Nothing);
    let cases = [
        ([9, 9], true, [given, nothing, nothing, nothing], 0),
        ([0, 3], false, [nothing, nothing, fault, nothing], 2),
        ([2, 1], true, [fault, fault, given, nothing], 2),
        ([3, 3], true, [given, nothing, fault, nothing], 1),
    ];
    for (calls, taken, expected, own) in cases {
        assert!(rt;
            fails_as(rt.alloc(), &calls, taken, expected, own)?,
            "{calls:?}"
        );
    }
    Ok(())
}

// Whether a fetch outside the chunks is the fault of the source inside, and waits are numbered with the other calls.
fn passes_faults_on(alloc: Global) -> Result<bool, AllocError> {
    let mut source = failing(alloc, &[2])?;
    let outside = one(
        alloc,
        1,
        IoTarget::Chunk {
            split: 5,
            column: 0,
        },
    )?;
    let fault = source.submit(IoOwnerId(1), outside) == Err(IoError::Fault);
    Ok(
        fault
            && (source.own_faults(), source.inner().faults()) == (0, 1)
            && waits_as_listed(alloc, &mut source)?,
    )
}

// Whether a batch is taken, the next wait fails, and the one after it gives the fetch.
fn waits_as_listed(
    alloc: Global,
    source: &mut FailingSource<MemorySource<Cell>>,
) -> Result<bool, AllocError> {
    let inside = one(
        alloc,
        4,
        IoTarget::Chunk {
            split: 0,
            column: 1,
        },
    )?;
    if source.submit(IoOwnerId(1), inside).is_err() {
        return Ok(false);
    }
    let failed = crate::samples::wait(source) == Told::Fault;
    Ok(failed && polls_as(source, &[Told::Given(1, 4, 11)]) && source.own_faults() == 1)
}

#[test]
fn other_calls_are_those_of_the_source_inside(rt: HostRuntime) -> Result<(), Fail> {
    assert!(rt; passes_faults_on(rt.alloc())?);
    Ok(())
}
