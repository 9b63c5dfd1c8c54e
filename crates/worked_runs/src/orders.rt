// Batches by place, whatever the order in which sources complete fetches.
use crate::pieces::{Kind, Order};
use crate::running::{ended_as, gives, two_roots};
use std::alloc::{AllocError, Global};
use std::test::Fail;
use vortex_io::{Arrive, Order as Arrival};

// Two children whose place is their parent's key.
#[test]
fn children_have_places_of_their_own(rt: HostRuntime) -> Result<(), Fail> {
    let orders = [Order::Morsel(Kind::Gives(2)), Order::Morsel(Kind::Gives(5))];
    let arrive = Arrive::OnPoll(Arrival::First);
    assert!(rt; gives(rt.alloc(), &orders, arrive, &[], "0.0.=2 0.1.=5 done0 idle")?);
    Ok(())
}

// A root computes until its child planner's key is less, and a child planner's morsel has a longer place.
#[test]
fn a_ready_morsel_comes_before_one_that_waits(rt: HostRuntime) -> Result<(), Fail> {
    let orders = [
        Order::Planner(Kind::Fetches(0)),
        Order::Morsel(Kind::Gives(4)),
    ];
    let arrive = Arrive::OnWait(Arrival::First);
    assert!(rt;
        gives(
            rt.alloc(),
            &orders,
            arrive,
            &[7],
            "0.1.=4 0.0.0.=7 done0 idle"
        )?
    );
    Ok(())
}

// What three morsels that fetch give, if sources complete in this order.
fn three(alloc: Global, arrive: Arrive, expected: &str) -> Result<bool, AllocError> {
    let orders = [
        Order::Morsel(Kind::Fetches(0)),
        Order::Morsel(Kind::FetchesTwo(0, 1)),
        Order::Morsel(Kind::Fetches(2)),
    ];
    gives(alloc, &orders, arrive, &[1, 2, 3], expected)
}

#[test]
fn every_order_of_polls_gives_the_same_batches(rt: HostRuntime) -> Result<(), Fail> {
    for order in [Arrival::First, Arrival::Last, Arrival::Seeded(5)] {
        let arrive = Arrive::OnPoll(order);
        assert!(rt; three(rt.alloc(), arrive, "0.0.=1 0.1.=3 0.2.=3 done0 idle")?);
    }
    Ok(())
}

#[test]
fn every_order_of_waits_gives_the_same_batches_by_place(rt: HostRuntime) -> Result<(), Fail> {
    let cases = [
        (Arrival::First, "0.0.=1 0.1.=3 0.2.=3 done0 idle"),
        (Arrival::Last, "0.2.=3 0.1.=3 0.0.=1 done0 idle"),
    ];
    for (order, expected) in cases {
        assert!(rt; three(rt.alloc(), Arrive::OnWait(order), expected)?);
    }
    Ok(())
}

// Whether the ready root of two comes first, and each ends once.
fn both_end(alloc: Global) -> Result<bool, AllocError> {
    let first = [Order::Morsel(Kind::Fetches(0))];
    let second = [Order::Morsel(Kind::Gives(9))];
    let mut run = two_roots(alloc, &first, &second, Arrive::OnWait(Arrival::First), &[6])?;
    if run.live_roots() != 2 {
        return Ok(false);
    }
    let ended = ended_as(alloc, &mut run, "1.0.=9 done1 0.0.=6 done0 idle")?;
    Ok(ended && run.live_roots() == 0)
}

#[test]
fn roots_are_taken_in_order_of_admission(rt: HostRuntime) -> Result<(), Fail> {
    assert!(rt; both_end(rt.alloc())?);
    Ok(())
}
