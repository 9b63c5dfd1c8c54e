// Batches by place, whatever the order in which three completions arrive.
use crate::pieces::{Cell, Kind, Order};
use crate::running::{Runs, end_into, ended_as, note_next, one_root};
use std::alloc::{AllocError, Global};
use std::test::Fail;
use vortex_io::{Arrive, Completion, IoOwnerId, IoRequestId, IoResult, Order as Arrival};
use vortex_scan::RootId;

// A run whose three morsels, of owners 1 to 3, wait for a chunk each.
fn three_wait(alloc: Global) -> Result<Runs, AllocError> {
    let orders = [
        Order::Morsel(Kind::Fetches(0)),
        Order::Morsel(Kind::Fetches(1)),
        Order::Morsel(Kind::Fetches(2)),
    ];
    let arrive = Arrive::OnWait(Arrival::First);
    let mut run = one_root(alloc, &orders, arrive, &[9, 9, 9])?;
    let _ = run.advance();
    Ok(run)
}

// Whether the morsel of an owner takes a chunk of the owner's number.
fn arrives(run: &mut Runs, owner: u64) -> bool {
    let completion = Completion {
        owner: IoOwnerId(owner),
        request: IoRequestId(0),
        result: IoResult::Chunk(Cell { value: owner }),
    };
    run.complete(RootId(0), completion).is_ok()
}

// Whether all three arrive in this order before the run goes on.
fn arrive_at_once(run: &mut Runs, owners: &[u64]) -> bool {
    for owner in owners {
        if !arrives(run, *owner) {
            return false;
        }
    }
    true
}

// Notes what the run gives each time that one has arrived, and then until nothing is live.
fn note_each(
    alloc: Global,
    run: &mut Runs,
    owners: &[u64],
    log: &mut String,
) -> Result<(), AllocError> {
    for owner in owners {
        let _ = arrives(run, *owner);
        let _ = note_next(alloc, run, log)?;
    }
    end_into(alloc, run, log)
}

fn says_each(
    alloc: Global,
    run: &mut Runs,
    owners: &[u64],
    expected: &str,
) -> Result<bool, AllocError> {
    let mut log = String::new(alloc);
    note_each(alloc, run, owners, &mut log)?;
    Ok(log.as_str() == expected)
}

// Whether three that arrive at once in this order give their batches by place.
fn give_by_place(alloc: Global, owners: &[u64]) -> Result<bool, AllocError> {
    let mut run = three_wait(alloc)?;
    Ok(
        arrive_at_once(&mut run, owners)
            && ended_as(alloc, &mut run, "0.0.=1 0.1.=2 0.2.=3 done0 idle")?,
    )
}

// Whether three that arrive one by one in this order give the same batches, each as it arrives.
fn give_each(alloc: Global, owners: &[u64], expected: &str) -> Result<bool, AllocError> {
    let mut run = three_wait(alloc)?;
    says_each(alloc, &mut run, owners, expected)
}

fn is_case(alloc: Global, owners: &[u64], expected: &str) -> Result<bool, AllocError> {
    Ok(give_by_place(alloc, owners)? && give_each(alloc, owners, expected)?)
}

#[test]
fn each_of_six_orders_gives_the_same_batches(rt: HostRuntime) -> Result<(), Fail> {
    let cases = [
        ([1, 2, 3], "0.0.=1 0.1.=2 0.2.=3 done0 idle"),
        ([1, 3, 2], "0.0.=1 0.2.=3 0.1.=2 done0 idle"),
        ([2, 1, 3], "0.1.=2 0.0.=1 0.2.=3 done0 idle"),
        ([2, 3, 1], "0.1.=2 0.2.=3 0.0.=1 done0 idle"),
        ([3, 1, 2], "0.2.=3 0.0.=1 0.1.=2 done0 idle"),
        ([3, 2, 1], "0.2.=3 0.1.=2 0.0.=1 done0 idle"),
    ];
    for (owners, expected) in cases {
        assert!(rt; is_case(rt.alloc(), &owners, expected)?);
    }
    Ok(())
}
