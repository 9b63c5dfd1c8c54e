// Which fetch comes next, in each order.
use crate::samples::{Told, asked_polls_as, asked_waits_as, cells, five};
use std::alloc::{AllocError, Global};
use std::test::Fail;
use vortex_io::{Arrive, Order};

// What the five fetches of owner 3 give, each by its number.
fn gives(request: usize) -> Told {
    match [11, 20, 21, 2, 10].get(request) {
        Some(value) => Told::Given(3, request as u64, *value),
        None => Told::Nothing,
    }
}

// Whether the five fetches come in this order of their numbers when they are waited for, and also when they are polled.
fn comes_as(alloc: Global, order: Order, numbers: [usize; 5]) -> Result<bool, AllocError> {
    let expected = [
        gives(numbers[0]),
        gives(numbers[1]),
        gives(numbers[2]),
        gives(numbers[3]),
        gives(numbers[4]),
    ];
    Ok(waited_as(alloc, order, &expected)? && polled_as(alloc, order, &expected)?)
}

fn waited_as(alloc: Global, order: Order, expected: &[Told; 5]) -> Result<bool, AllocError> {
    let mut source = cells(alloc, Arrive::OnWait(order))?;
    let batch = five(alloc)?;
    Ok(asked_waits_as(&mut source, 3, batch, expected))
}

fn polled_as(alloc: Global, order: Order, expected: &[Told; 5]) -> Result<bool, AllocError> {
    let mut source = cells(alloc, Arrive::OnPoll(order))?;
    let batch = five(alloc)?;
    Ok(asked_polls_as(&mut source, 3, batch, expected))
}

#[test]
fn each_order_picks_its_own_fetch(rt: HostRuntime) -> Result<(), Fail> {
    let cases = [
        (Order::First, [0, 1, 2, 3, 4]),
        (Order::Last, [4, 3, 2, 1, 0]),
        (Order::Seeded(0), [2, 0, 3, 1, 4]),
        (Order::Seeded(7), [3, 4, 0, 2, 1]),
        (Order::Seeded(1234567), [4, 0, 2, 1, 3]),
        (Order::Seeded(u64::MAX), [3, 4, 1, 0, 2]),
    ];
    for (order, numbers) in cases {
        assert!(rt; comes_as(rt.alloc(), order, numbers)?, "{order:?}");
    }
    Ok(())
}
