// What a source in memory answers, keeps and notes.
use crate::samples::{
    Cell, Told, asked_polls_as, asked_waits_as, asks, cells, chunk, five, one, poll, polls_as,
};
use std::alloc::{AllocError, Global};
use std::test::Fail;
use vortex_io::{
    Arrive, IoBatch, IoIntent, IoOwnerId, IoResult, IoSource, IoTarget, JournalEntry, Order,
};

const IN_ORDER: Arrive = Arrive::OnPoll(Order::First);

#[test]
fn a_result_matches_a_target_of_its_kind(rt: HostRuntime) {
    let place = chunk(0, 0);
    let given = IoResult::Chunk(Cell { value: 1 });
    let size = IoResult::<Cell>::Size(1);
    let cases = [
        (&given, &place, true),
        (&size, &IoTarget::Size, true),
        (&given, &IoTarget::Size, false),
        (&size, &place, false),
    ];
    for (given, target, expected) in cases {
        assert_eq!(rt; given.matches(target), expected);
    }
}

#[test]
fn a_source_lends_its_chunks_and_how_it_arrives(rt: HostRuntime) -> Result<(), Fail> {
    let source = cells(rt.alloc(), IN_ORDER)?;
    assert_eq!(rt; source.arrive(), IN_ORDER);
    assert_eq!(rt; source.chunk(1, 1).value, 21);
    assert_eq!(rt; (source.faults(), source.journal().len()), (0, 0));
    Ok(())
}

// Whether a poll finds nothing where nothing is outstanding, nor where fetches arrive on wait.
fn finds_nothing(alloc: Global) -> Result<bool, AllocError> {
    let mut idle = cells(alloc, IN_ORDER)?;
    Ok(poll(&mut idle) == Told::Nothing && finds_nothing_on_wait(alloc)?)
}

fn finds_nothing_on_wait(alloc: Global) -> Result<bool, AllocError> {
    let mut source = cells(alloc, Arrive::OnWait(Order::First))?;
    let batch = five(alloc)?;
    Ok(asked_polls_as(&mut source, 1, batch, &[Told::Nothing, Told::Nothing]))
}

#[test]
fn a_poll_finds_nothing_where_nothing_is_ready(rt: HostRuntime) -> Result<(), Fail> {
    assert!(rt; finds_nothing(rt.alloc())?);
    Ok(())
}

// What is noted of a batch: each of its requests, of whatever intent.
fn notes_batch(journal: &[JournalEntry], owner: u64, batch: &IoBatch) -> bool {
    journal.len() >= batch.len()
        && batch.as_slice().iter().zip(journal.iter()).all(|(request, entry)| {
            *entry == JournalEntry::Submitted(IoOwnerId(owner), *request)
        })
}

// Whether a batch and then two waits are noted, and no poll.
fn notes(alloc: Global) -> Result<bool, AllocError> {
    let mut source = cells(alloc, IN_ORDER)?;
    let batch = five(alloc)?;
    let asked = asked_waits_as(
        &mut source,
        3,
        batch,
        &[Told::Given(3, 0, 11), Told::Given(3, 1, 20)],
    );
    let polled = polls_as(&mut source, &[Told::Given(3, 2, 21)]);
    let again = five(alloc)?;
    let noted = source.journal();
    let waits = noted
        .iter()
        .filter(|entry| **entry == JournalEntry::Waited)
        .count();
    Ok(asked && polled && notes_batch(noted, 3, &again) && (noted.len(), waits) == (9, 2))
}

#[test]
fn batches_and_waits_are_noted_and_polls_are_not(rt: HostRuntime) -> Result<(), Fail> {
    assert!(rt; notes(rt.alloc())?);
    Ok(())
}

// Whether what an owner gives up is not completed, and nothing is once all is given up.
fn gives_up(alloc: Global) -> Result<bool, AllocError> {
    let mut source = cells(alloc, IN_ORDER)?;
    let mut taken = true;
    for owner in [1, 2, 1] {
        taken = taken
            && source
                .submit(IoOwnerId(owner), one(alloc, owner, IoTarget::Size)?)
                .is_ok();
    }
    source.release(IoOwnerId(1));
    let released = polls_as(&mut source, &[Told::Given(2, 2, 2), Told::Nothing]);
    let again = one(alloc, 5, chunk(0, 0))?;
    taken = taken && source.submit(IoOwnerId(3), again).is_ok();
    source.clear();
    Ok(taken && released && poll(&mut source) == Told::Nothing)
}

#[test]
fn what_is_given_up_is_not_completed(rt: HostRuntime) -> Result<(), Fail> {
    assert!(rt; gives_up(rt.alloc())?);
    Ok(())
}

// Whether a batch with this fetch behind others is a fault, which is counted and leaves nothing outstanding or noted.
fn faults_at(alloc: Global, split: u64, column: u64) -> Result<bool, AllocError> {
    let mut source = cells(alloc, IN_ORDER)?;
    let mut batch = five(alloc)?;
    batch.push(asks(IoIntent::Fetch, 9, chunk(split, column)))?;
    let refused = source.submit(IoOwnerId(1), batch).is_err();
    let left = poll(&mut source) == Told::Nothing && source.journal().is_empty();
    Ok(refused && left && source.faults() == 1)
}

#[test]
fn a_fetch_outside_the_chunks_is_a_fault(rt: HostRuntime) -> Result<(), Fail> {
    let cases = [
        (0, 0, false),
        (1, 1, false),
        (2, 0, true),
        (0, 2, true),
        (u64::MAX, 0, true),
        (0, u64::MAX, true),
    ];
    for (split, column, expected) in cases {
        let refused = faults_at(rt.alloc(), split, column)?;
        assert_eq!(rt; refused, expected, "split {split}, column {column}");
    }
    Ok(())
}

// Whether a batch that was refused for want of memory is taken the next time, with nothing left of the first.
fn is_taken_again(alloc: Global) -> Result<bool, AllocError> {
    let mut source = cells(alloc, IN_ORDER)?;
    let (first, again) = (one(alloc, 1, chunk(1, 0))?, one(alloc, 1, chunk(1, 0))?);
    if source.submit(IoOwnerId(0), first).is_err() && source.submit(IoOwnerId(0), again).is_err() {
        return Err(AllocError);
    }
    Ok(
        source.journal().len() == 1
            && polls_as(&mut source, &[Told::Given(0, 1, 20), Told::Nothing]),
    )
}

#[test]
fn a_batch_without_memory_leaves_the_source(rt: HostRuntime) -> Result<(), Fail> {
    assert!(rt; is_taken_again(rt.alloc())?);
    Ok(())
}
