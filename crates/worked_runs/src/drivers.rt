// Drivers: one root over one source, to its end; and closures that make roots.
use crate::pieces::{Cell, Failure, Kind, Order, Told, planner_of};
use crate::running::{cells, note_batch, word};
use crate::waiter::Waiter;
use std::alloc::{AllocError, Global};
use std::test::Fail;
use vortex_buffer::Buffer;
use vortex_io::{Arrive, FailingSource, IoSource, MemorySource, Order as Arrival};
use vortex_scan::{Batch, Driver, DriverRun, Planner, RunError, next_fn};

// The batches of an answer as text, or why there are none.
fn text_of(
    alloc: Global,
    answer: &Result<Vec<Batch>, RunError<Failure>>,
) -> Result<String, AllocError> {
    let mut log = String::new(alloc);
    match answer {
        Err(error) => log.push_str(word(error))?,
        Ok(batches) => {
            for batch in batches {
                let _ = note_batch(alloc, &mut log, batch)?;
            }
        }
    }
    Ok(log)
}

// Whether a root over this source is answered so.
fn drives<P: Planner<Payload = Cell, Error = Failure>, S: IoSource<Payload = Cell>>(
    alloc: Global,
    root: P,
    source: S,
    limit: u64,
    expected: &str,
) -> Result<bool, AllocError> {
    let DriverRun {
        source: _source,
        answer,
    } = Driver::new(alloc, source).with_step_limit(limit).run(root);
    Ok(text_of(alloc, &answer)?.as_str() == expected)
}

// Whether a root with these orders is answered so, over a source of three chunks that is waited for.
fn gives(
    alloc: Global,
    orders: &[Order],
    order: Arrival,
    limit: u64,
    expected: &str,
) -> Result<bool, AllocError> {
    let source = cells(alloc, Arrive::OnWait(order), &[7, 8, 9])?;
    drives(alloc, planner_of(alloc, orders)?, source, limit, expected)
}

#[test]
fn a_planner_that_ends_at_once_gives_no_batch(rt: HostRuntime) -> Result<(), Fail> {
    assert!(rt; gives(rt.alloc(), &[], Arrival::First, 10, "")?);
    Ok(())
}

#[test]
fn a_planner_that_goes_on_too_often_reaches_the_limit(rt: HostRuntime) -> Result<(), Fail> {
    let orders = [Order::Continue; 100];
    assert!(rt; gives(rt.alloc(), &orders, Arrival::First, 10, "step-limit")?);
    assert!(rt; gives(rt.alloc(), &orders, Arrival::First, 101, "")?);
    Ok(())
}

#[test]
fn a_planner_that_waits_for_nothing_is_refused(rt: HostRuntime) -> Result<(), Fail> {
    let source = cells(rt.alloc(), Arrive::OnWait(Arrival::First), &[])?;
    assert!(rt; drives(rt.alloc(), Waiter::new(), source, 10, "waits-for-nothing")?);
    Ok(())
}

// A root emits first a planner whose morsel waits, and then a morsel that does not.
#[test]
fn batches_come_in_the_order_in_which_they_are_ready(rt: HostRuntime) -> Result<(), Fail> {
    let orders = [
        Order::Planner(Kind::Fetches(0)),
        Order::Morsel(Kind::Gives(4)),
    ];
    assert!(rt; gives(rt.alloc(), &orders, Arrival::First, 100, "0.1.=4 0.0.0.=7 ")?);
    Ok(())
}

#[test]
fn each_order_of_arrival_gives_all_batches(rt: HostRuntime) -> Result<(), Fail> {
    let orders = [
        Order::Morsel(Kind::Fetches(0)),
        Order::Morsel(Kind::Fetches(1)),
        Order::Morsel(Kind::Fetches(2)),
    ];
    let cases = [
        (Arrival::First, "0.0.=7 0.1.=8 0.2.=9 "),
        (Arrival::Last, "0.2.=9 0.1.=8 0.0.=7 "),
    ];
    for (order, expected) in cases {
        assert!(rt; gives(rt.alloc(), &orders, order, 100, expected)?);
    }
    Ok(())
}

// A source of one chunk that fails at one call.
fn failing(alloc: Global, call: u64) -> Result<FailingSource<MemorySource<Cell>>, AllocError> {
    let inner = cells(alloc, Arrive::OnWait(Arrival::First), &[7])?;
    Ok(FailingSource::new(inner, Buffer::from_slice(alloc, &[call])?))
}

// Whether a root that fetches once is answered so, where this call of its source fails.
fn fails_at(alloc: Global, call: u64, expected: &str) -> Result<bool, AllocError> {
    let root = planner_of(alloc, &[Order::Fetch(0)])?;
    drives(alloc, root, failing(alloc, call)?, 100, expected)
}

#[test]
fn a_source_that_fails_is_named(rt: HostRuntime) -> Result<(), Fail> {
    // The calls: a poll, the batch, another poll and the wait.
    for call in [0, 1, 2, 3] {
        assert!(rt; fails_at(rt.alloc(), call, "source")?);
    }
    assert!(rt; fails_at(rt.alloc(), 9, "")?);
    Ok(())
}

// A planner of so many steps.
fn planner_of_steps(alloc: Global, steps: u64) -> Result<Told, AllocError> {
    let mut orders = Vec::new(alloc);
    for _ in 0..steps {
        orders.push(Order::Continue)?;
    }
    planner_of(alloc, orders.as_slice())
}

// The same, but of 7 none.
fn steps_but_seven(alloc: Global, steps: u64) -> Result<Told, Failure> {
    if steps == 7 {
        return Err(Failure::Told);
    }
    Ok(planner_of_steps(alloc, steps)?)
}

#[test]
fn a_stored_closure_answers_what_it_answers(rt: HostRuntime) -> Result<(), Fail> {
    let alloc = rt.alloc();
    let next = next_fn(|steps: u64| steps_but_seven(alloc, steps));
    assert!(rt; matches!(next.call(7), Err(Failure::Told)));
    assert!(rt; next.call(6).is_ok());
    Ok(())
}
