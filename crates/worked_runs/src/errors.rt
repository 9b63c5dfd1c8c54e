// Each refusal of a run.
use crate::pieces::{Kind, Order};
use crate::running::{Runs, ended_as, gives, one_root};
use std::alloc::{AllocError, Global};
use std::test::Fail;
use vortex_io::{Arrive, Order as Arrival};

// Whether a root that does this one thing gives this.
fn fails_as(alloc: Global, order: Order, expected: &str) -> Result<bool, AllocError> {
    let arrive = Arrive::OnWait(Arrival::First);
    gives(alloc, &[order], arrive, &[3], expected)
}

#[test]
fn each_cause_of_a_planner_has_its_refusal(rt: HostRuntime) -> Result<(), Fail> {
    let cases = [
        (Order::Nothing, "empty-io"),
        (Order::Fail, "planner"),
        (Order::Fetch(8), "source"),
        (Order::Fetch(0), "done0 idle"),
        (Order::Continue, "done0 idle"),
    ];
    for (order, expected) in cases {
        assert!(rt; fails_as(rt.alloc(), order, expected)?);
    }
    Ok(())
}

// Whether a root with a morsel of this kind gives this.
fn morsel_fails_as(alloc: Global, kind: Kind, expected: &str) -> Result<bool, AllocError> {
    fails_as(alloc, Order::Morsel(kind), expected)
}

#[test]
fn each_cause_of_a_morsel_has_its_refusal(rt: HostRuntime) -> Result<(), Fail> {
    let cases = [
        (Kind::Gives(0), "empty-batch"),
        (Kind::PublishesNothing, "empty-io"),
        (Kind::PublishesTwice, "republished"),
        (Kind::Hints, "waits-for-nothing"),
        (Kind::Waits, "waits-for-nothing"),
        (Kind::Fails, "planner"),
        (Kind::Nothing, "done0 idle"),
    ];
    for (kind, expected) in cases {
        assert!(rt; morsel_fails_as(rt.alloc(), kind, expected)?);
    }
    Ok(())
}

// A run of one root whose morsel goes on a hundred times, with this limit of visits.
fn limited(alloc: Global, limit: u64) -> Result<Runs, AllocError> {
    let orders = [Order::Morsel(Kind::GoesOn(100))];
    let run = one_root(alloc, &orders, Arrive::OnPoll(Arrival::First), &[])?;
    Ok(run.with_step_limit(limit))
}

// Whether it gives this, and then that.
fn ends_as(alloc: Global, limit: u64, first: &str, second: &str) -> Result<bool, AllocError> {
    let mut run = limited(alloc, limit)?;
    Ok(ended_as(alloc, &mut run, first)? && ended_as(alloc, &mut run, second)?)
}

#[test]
fn a_limit_is_kept(rt: HostRuntime) -> Result<(), Fail> {
    let cases = [
        (0, "step-limit", "failed"),
        (102, "step-limit", "failed"),
        (103, "done0 idle", "idle"),
    ];
    for (limit, first, second) in cases {
        assert!(rt; ends_as(rt.alloc(), limit, first, second)?);
    }
    Ok(())
}
