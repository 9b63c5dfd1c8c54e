// What planners that keep all rules give, in each order in which completions come, and over sources in memory.
use crate::drained::{list, survey};
use crate::lister::Lister;
use crate::pieces::Cell;
use crate::running::{cells, end_into, ended_as, no_rows, note_batch, note_next, word};
use crate::surveyor::Surveyor;
use std::alloc::{AllocError, Global};
use std::test::Fail;
use vortex_io::{
    Arrive, Completion, IoError, IoOwnerId, IoRequestId, IoResult, MemorySource, Order as Arrival,
};
use vortex_scan::{Batch, Planner, RootId, Run, RunError};

type Lists = Run<Lister, MemorySource<Cell>>;

type Surveys = Run<Surveyor, MemorySource<Cell>>;

// A run of one lister of three splits, over a source of these numbers.
fn lists(alloc: Global, arrive: Arrive, numbers: &[u64]) -> Result<Lists, AllocError> {
    let source = cells(alloc, arrive, numbers)?;
    let mut run = Run::new(alloc);
    let _ = run.admit(Lister::new(alloc, 3), no_rows(), source);
    Ok(run)
}

// A run of one surveyor of at most five splits, over a source of these numbers.
fn surveys(alloc: Global, arrive: Arrive, numbers: &[u64]) -> Result<Surveys, AllocError> {
    let source = cells(alloc, arrive, numbers)?;
    let mut run = Run::new(alloc);
    let _ = run.admit(Surveyor::new(alloc, 5), no_rows(), source);
    Ok(run)
}

// Whether an item takes this from its source.
fn takes<P: Planner<Payload = Cell>>(
    run: &mut Run<P, MemorySource<Cell>>,
    owner: u64,
    outcome: IoResult<Cell>,
) -> bool {
    let completion = Completion {
        owner: IoOwnerId(owner),
        request: IoRequestId(0),
        result: outcome,
    };
    run.complete(RootId(0), completion).is_ok()
}

// A run whose three readers, of owners 1 to 3, wait for a chunk each.
fn lists_wait(alloc: Global) -> Result<Lists, AllocError> {
    let mut run = lists(alloc, Arrive::OnWait(Arrival::First), &[9, 9, 9])?;
    let _ = run.advance();
    Ok(run)
}

// The same of a surveyor that was told of three splits, and readers of owners 2 to 4.
fn surveys_wait(alloc: Global) -> Result<Surveys, AllocError> {
    let mut run = surveys(alloc, Arrive::OnWait(Arrival::First), &[9, 9, 9])?;
    let _ = run.advance();
    let _ = takes(&mut run, 0, IoResult::Size(3));
    let _ = run.advance();
    Ok(run)
}

// Notes what a run gives where the readers take chunks of these numbers one by one, each its place among them, and then until nothing is live.
fn note_each<P: Planner<Payload = Cell>>(
    alloc: Global,
    run: &mut Run<P, MemorySource<Cell>>,
    first: u64,
    places: &[u64],
    log: &mut String,
) -> Result<(), AllocError> {
    for place in places {
        let owner = first.saturating_add(*place);
        let value = place.saturating_add(1);
        let _ = takes(run, owner, IoResult::Chunk(Cell { value }));
        let _ = note_next(alloc, run, log)?;
    }
    end_into(alloc, run, log)
}

// Whether it gives this so.
fn says_each<P: Planner<Payload = Cell>>(
    alloc: Global,
    run: &mut Run<P, MemorySource<Cell>>,
    first: u64,
    places: &[u64],
    expected: &str,
) -> Result<bool, AllocError> {
    let mut log = String::new(alloc);
    note_each(alloc, run, first, places, &mut log)?;
    Ok(log.as_str() == expected)
}

fn lists_say(alloc: Global, places: &[u64], expected: &str) -> Result<bool, AllocError> {
    let mut run = lists_wait(alloc)?;
    says_each(alloc, &mut run, 1, places, expected)
}

fn surveys_say(alloc: Global, places: &[u64], expected: &str) -> Result<bool, AllocError> {
    let mut run = surveys_wait(alloc)?;
    says_each(alloc, &mut run, 2, places, expected)
}

#[test]
fn a_lister_gives_its_rows_in_each_order_of_arrival(rt: HostRuntime) -> Result<(), Fail> {
    let cases = [
        ([0, 1, 2], "0.0.=1 0.1.=2 0.2.=3 done0 idle"),
        ([0, 2, 1], "0.0.=1 0.2.=3 0.1.=2 done0 idle"),
        ([1, 0, 2], "0.1.=2 0.0.=1 0.2.=3 done0 idle"),
        ([1, 2, 0], "0.1.=2 0.2.=3 0.0.=1 done0 idle"),
        ([2, 0, 1], "0.2.=3 0.0.=1 0.1.=2 done0 idle"),
        ([2, 1, 0], "0.2.=3 0.1.=2 0.0.=1 done0 idle"),
    ];
    for (places, expected) in cases {
        assert!(rt; lists_say(rt.alloc(), &places, expected)?);
    }
    Ok(())
}

#[test]
fn a_surveyor_gives_its_rows_in_each_order_of_arrival(rt: HostRuntime) -> Result<(), Fail> {
    let cases = [
        ([0, 1, 2], "0.0.0.=1 0.0.1.=2 0.0.2.=3 done0 idle"),
        ([0, 2, 1], "0.0.0.=1 0.0.2.=3 0.0.1.=2 done0 idle"),
        ([1, 0, 2], "0.0.1.=2 0.0.0.=1 0.0.2.=3 done0 idle"),
        ([1, 2, 0], "0.0.1.=2 0.0.2.=3 0.0.0.=1 done0 idle"),
        ([2, 0, 1], "0.0.2.=3 0.0.0.=1 0.0.1.=2 done0 idle"),
        ([2, 1, 0], "0.0.2.=3 0.0.1.=2 0.0.0.=1 done0 idle"),
    ];
    for (places, expected) in cases {
        assert!(rt; surveys_say(rt.alloc(), &places, expected)?);
    }
    Ok(())
}

fn lists_end(
    alloc: Global,
    arrive: Arrive,
    numbers: &[u64],
    expected: &str,
) -> Result<bool, AllocError> {
    let mut run = lists(alloc, arrive, numbers)?;
    ended_as(alloc, &mut run, expected)
}

fn surveys_end(
    alloc: Global,
    arrive: Arrive,
    numbers: &[u64],
    expected: &str,
) -> Result<bool, AllocError> {
    let mut run = surveys(alloc, arrive, numbers)?;
    ended_as(alloc, &mut run, expected)
}

// A chunk of no rows fails its reader, once the batches that were ready before it are given.
#[test]
fn a_lister_ends_over_a_source_in_memory(rt: HostRuntime) -> Result<(), Fail> {
    let first = Arrive::OnWait(Arrival::First);
    let last = Arrive::OnWait(Arrival::Last);
    let seeded = Arrive::OnPoll(Arrival::Seeded(5));
    let cases = [
        (first, [5, 6, 7], "0.0.=7 0.1.=6 0.2.=5 done0 idle"),
        (last, [5, 6, 7], "0.2.=5 0.1.=6 0.0.=7 done0 idle"),
        (seeded, [5, 6, 7], "0.0.=7 0.1.=6 0.2.=5 done0 idle"),
        (first, [5, 0, 7], "0.0.=7 planner"),
        (last, [5, 0, 7], "0.2.=5 planner"),
    ];
    for (arrive, numbers, expected) in cases {
        assert!(rt; lists_end(rt.alloc(), arrive, &numbers, expected)?);
    }
    Ok(())
}

#[test]
fn a_surveyor_ends_over_a_source_in_memory(rt: HostRuntime) -> Result<(), Fail> {
    let first = Arrive::OnWait(Arrival::First);
    let last = Arrive::OnWait(Arrival::Last);
    let seeded = Arrive::OnPoll(Arrival::Seeded(5));
    let cases = [
        (first, [5, 6, 7], "0.0.0.=7 0.0.1.=6 0.0.2.=5 done0 idle"),
        (last, [5, 6, 7], "0.0.2.=5 0.0.1.=6 0.0.0.=7 done0 idle"),
        (seeded, [5, 6, 7], "0.0.0.=7 0.0.1.=6 0.0.2.=5 done0 idle"),
        (first, [5, 0, 7], "0.0.0.=7 planner"),
        (last, [5, 0, 7], "0.0.2.=5 planner"),
    ];
    for (arrive, numbers, expected) in cases {
        assert!(rt; surveys_end(rt.alloc(), arrive, &numbers, expected)?);
    }
    Ok(())
}

// Notes what was given, or why nothing was.
fn note_given(
    alloc: Global,
    given: &Result<Vec<Batch>, RunError<IoError>>,
    log: &mut String,
) -> Result<(), AllocError> {
    match given {
        Ok(batches) => {
            for batch in batches {
                let _ = note_batch(alloc, log, batch)?;
            }
            Ok(())
        }
        Err(error) => log.push_str(word(error)),
    }
}

// Whether a surveyor of at most so many splits gives this over a source of these numbers, and a lister of so many gives that.
fn give(
    alloc: Global,
    splits: u64,
    numbers: &[u64],
    surveyed: &str,
    listed: &str,
) -> Result<bool, AllocError> {
    if splits > 1000 {
        return Ok(false);
    }
    let arrive = Arrive::OnPoll(Arrival::First);
    let mut first = String::new(alloc);
    let given = survey(alloc, splits, cells(alloc, arrive, numbers)?);
    note_given(alloc, &given, &mut first)?;
    let mut second = String::new(alloc);
    let given = list(alloc, splits, cells(alloc, arrive, numbers)?);
    note_given(alloc, &given, &mut second)?;
    Ok(first.as_str() == surveyed && second.as_str() == listed)
}

// A surveyor asks for no more splits than there are; a lister's source fails at a chunk that it lacks.
#[test]
fn what_is_owed_is_given_within_its_work(rt: HostRuntime) -> Result<(), Fail> {
    let cases = [
        (2, [3, 4, 5], "0.0.0.=4 0.0.1.=3 ", "0.0.=4 0.1.=3 "),
        (
            3,
            [3, 4, 5],
            "0.0.0.=5 0.0.1.=4 0.0.2.=3 ",
            "0.0.=5 0.1.=4 0.2.=3 ",
        ),
        (4, [3, 4, 5], "0.0.0.=5 0.0.1.=4 0.0.2.=3 ", "source"),
        (0, [3, 4, 5], "planner", ""),
        (2, [3, 0, 5], "planner", "planner"),
    ];
    for (splits, numbers, surveyed, listed) in cases {
        assert!(rt; give(rt.alloc(), splits, &numbers, surveyed, listed)?);
    }
    Ok(())
}
