// The calls besides going on.
ghost use Rattle.std.specs.Prelude.{◌≡◌, []};

use crate::pieces::{Cell, Kind, Order, Told, planner_of};
use crate::running::{
    Runs, admitted, cells, end_into, ended_as, no_rows, one_root, two_roots, word,
};
use std::alloc::{AllocError, Global};
use std::test::Fail;
use vortex_io::{
    Arrive, Completion, IoOwnerId, IoRequestId, IoResult, MemorySource, Order as Arrival,
};
use vortex_scan::{AdmitError, RootId, Run};

const WAITS: Arrive = Arrive::OnWait(Arrival::First);

const POLLS: Arrive = Arrive::OnPoll(Arrival::First);

const SEEDED: Arrive = Arrive::OnPoll(Arrival::Seeded(5));

// How many sources come back.
fn taken(run: &mut Runs) -> usize {
    run.take_sources().len()
}

// Whether a run refuses a root since it failed, and gives back its source.
fn refuses(run: &mut Runs, root: Told, source: MemorySource<Cell>) -> bool
    requires { source.outstanding ≡ [] }
{
    match run.admit(root, no_rows(), source) {
        Ok(_) => false,
        Err(refused) => refused.error == AdmitError::RunFailed && refused.source.arrive() == SEEDED,
    }
}

// Whether a run whose sources were taken refuses a root.
fn refuses_late(alloc: Global, run: &mut Runs) -> Result<bool, AllocError> {
    let _ = taken(run);
    let source = cells(alloc, SEEDED, &[4, 5])?;
    let root = planner_of(alloc, &[Order::Continue])?;
    Ok(refuses(run, root, source))
}

fn refused_late(alloc: Global) -> Result<bool, AllocError> {
    let mut run = one_root(alloc, &[Order::Morsel(Kind::Gives(1))], POLLS, &[])?;
    refuses_late(alloc, &mut run)
}

#[test]
fn a_root_is_refused_once_sources_were_taken(rt: HostRuntime) -> Result<(), Fail> {
    assert!(rt; refused_late(rt.alloc())?);
    Ok(())
}

// Whether both sources of a run that has failed come back, and none after that.
fn comes_back(run: &mut Runs) -> bool {
    taken(run) == 2 && run.live_roots() == 0 && taken(run) == 0
}

fn come_back(alloc: Global) -> Result<bool, AllocError> {
    let second = [Order::Morsel(Kind::Fetches(0))];
    let mut run = two_roots(alloc, &[Order::Fail], &second, WAITS, &[2])?;
    Ok(ended_as(alloc, &mut run, "planner")? && comes_back(&mut run))
}

#[test]
fn sources_come_back_whatever_happened(rt: HostRuntime) -> Result<(), Fail> {
    assert!(rt; come_back(rt.alloc())?);
    Ok(())
}

// Whether a run says that no root is live.
fn has_none(run: &mut Runs) -> bool {
    match run.poll_completion() {
        Ok(_) => false,
        Err(error) => word(&error) == "no-live-root",
    }
}

fn goes_on(alloc: Global) -> Result<bool, AllocError> {
    let mut run: Runs = Run::new(alloc);
    let orders = [Order::Morsel(Kind::Gives(1))];
    if !has_none(&mut run) || !admitted(alloc, &mut run, &orders, POLLS, &[])? {
        return Ok(false);
    }
    ended_as(alloc, &mut run, "0.0.=1 done0 idle")
}

#[test]
fn polling_without_roots_does_not_fail_the_run(rt: HostRuntime) -> Result<(), Fail> {
    assert!(rt; goes_on(rt.alloc())?);
    Ok(())
}

// Cancels a root, again, and one that never was. The answer is whether one is live.
fn cancelled(run: &mut Runs) -> bool {
    run.cancel(RootId(0));
    run.cancel(RootId(0));
    run.cancel(RootId(7));
    run.live_roots() == 1
}

fn never_done(alloc: Global) -> Result<bool, AllocError> {
    let first = [Order::Morsel(Kind::Fetches(0))];
    let second = [Order::Morsel(Kind::Gives(3))];
    let mut run = two_roots(alloc, &first, &second, WAITS, &[2])?;
    Ok(cancelled(&mut run) && ended_as(alloc, &mut run, "1.0.=3 done1 idle")?)
}

#[test]
fn a_cancelled_root_is_never_done(rt: HostRuntime) -> Result<(), Fail> {
    assert!(rt; never_done(rt.alloc())?);
    Ok(())
}

// What a run says to a result of a fetch for its first root: a chunk, or a number where a chunk was asked for.
fn completed(run: &mut Runs, owner: u64, request: u64, number: bool) -> &'static str {
    let result = if number {
        IoResult::Size(1)
    } else {
        IoResult::Chunk(Cell { value: 8 })
    };
    let completion = Completion {
        owner: IoOwnerId(owner),
        request: IoRequestId(request),
        result,
    };
    match run.complete(RootId(0), completion) {
        Ok(()) => "taken ",
        Err(error) => word(&error),
    }
}

// Notes what a run says to these results, and then gives.
fn note_results(
    alloc: Global,
    run: &mut Runs,
    results: &[(u64, u64, bool)],
    log: &mut String,
) -> Result<(), AllocError> {
    for (owner, request, number) in results {
        log.push_str(completed(run, *owner, *request, *number))?;
    }
    end_into(alloc, run, log)
}

fn says(
    alloc: Global,
    run: &mut Runs,
    results: &[(u64, u64, bool)],
    expected: &str,
) -> Result<bool, AllocError> {
    let mut log = String::new(alloc);
    note_results(alloc, run, results, &mut log)?;
    Ok(log.as_str() == expected)
}

// Whether a run, whose one morsel has owner 1 and waits for a fetch of number 0, says this to these results, and then gives it.
fn told(alloc: Global, results: &[(u64, u64, bool)], expected: &str) -> Result<bool, AllocError> {
    let mut run = one_root(alloc, &[Order::Morsel(Kind::Fetches(0))], WAITS, &[2])?;
    let _ = run.advance();
    says(alloc, &mut run, results, expected)
}

// Whether it says this to one result, and then to the one that it waits for.
fn told_then(
    alloc: Global,
    owner: u64,
    request: u64,
    number: bool,
    expected: &str,
) -> Result<bool, AllocError> {
    told(alloc, &[(owner, request, number), (1, 0, false)], expected)
}

#[test]
fn a_completion_is_taken_once_by_its_owner_number_and_kind(rt: HostRuntime) -> Result<(), Fail> {
    let cases = [
        (1, 0, false, "taken protocolfailed"),
        (2, 0, false, "protocolfailedfailed"),
        (1, 5, false, "protocolfailedfailed"),
        (1, 0, true, "protocolfailedfailed"),
    ];
    for (owner, request, number, expected) in cases {
        assert!(rt; told_then(rt.alloc(), owner, request, number, expected)?);
    }
    Ok(())
}

#[test]
fn a_completion_by_hand_makes_a_batch(rt: HostRuntime) -> Result<(), Fail> {
    assert!(rt; told(rt.alloc(), &[(1, 0, false)], "taken 0.0.=8 done0 idle")?);
    Ok(())
}
