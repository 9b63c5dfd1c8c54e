// A consumer that keeps what it was given, and a source that feeds it.
ghost use Rattle.std.specs.Prelude.{◌≡◌, ◌+◌, ◌-◌, ◌^◌, Some, min};
ghost use Rattle.vortex_io.specs.declared.ids.IoRequestId.{IoRequestId};

use crate::samples::{Cell, Told, cells, five, given};
use std::alloc::{AllocError, Global};
use std::test::Fail;
use vortex_io::{Arrive, IoConsumer, IoOwnerId, IoRequestId, IoResult, IoSource, IoTarget, Order};

// How many results came, and the sum of their numbers and values. Each number names one target.
struct Sum {
    target: IoTarget,
    count: u64,
    total: u64,
}

impl Drop for Sum {
    fn drop(self) {
        let Sum {
            target: _target,
            count: _count,
            total: _total,
        } = self;
    }
}

impl IoConsumer for Sum {
    type Payload = Cell;

    ghost takes = { λ old _ _ new. new.count ≡ min (old.count + 1) (2 ^ 64 - 1) };

    ghost names = { λ sum _. Some sum.target };

    fn set_io_result(&mut self, request: IoRequestId, outcome: IoResult<Cell>)
        ensures takes { self.new.count ≡ min (self.old.count + 1) (2 ^ 64 - 1) }
        ensures names { (number : IoRequestId) → Some self.new.target ≡ Some self.old.target }
    {
        let value = match outcome {
            IoResult::Chunk(cell) => cell.value,
            IoResult::Size(size) => size,
        };
        self.count = self.count.saturating_add(1);
        self.total = self.total.saturating_add(request.0).saturating_add(value);
    }
}

// Hands on what polls of a source give, as often as this.
fn feed<S: IoSource, C: IoConsumer<Payload = S::Payload>>(
    source: &mut S,
    consumer: &mut C,
    times: u64,
) {
    for _ in 0..times {
        if let Ok(Some(completion)) = source.poll() {
            consumer.set_io_result(completion.request, completion.result);
        }
    }
}

// The count and the sum of what the five fetches give.
fn fed(alloc: Global) -> Result<(u64, u64), AllocError> {
    let mut source = cells(alloc, Arrive::OnPoll(Order::Last))?;
    let batch = five(alloc)?;
    let mut sum = Sum {
        target: IoTarget::Size,
        count: 0,
        total: 0,
    };
    if source.submit(IoOwnerId(1), batch).is_ok() {
        feed(&mut source, &mut sum, 7);
    }
    Ok((sum.count, sum.total))
}

#[test]
fn a_consumer_takes_what_a_source_gives(rt: HostRuntime) -> Result<(), Fail> {
    assert_eq!(rt; fed(rt.alloc())?, (5, 74));
    Ok(())
}
