// One visit of an item.
ghost use Rattle.std.specs.Prelude.{◌≡◌, ◌≢◌, ℕ, ◌+◌, ◌-◌, ◌^◌, ◌<◌, ◌≤◌, ◌⊎◌, ◌++◌, ◌∷◌, [], false, length, slice_get, Some, Ok, IfOk, IfErr};
ghost use Rattle.std.proofs.Math.ListN.{set};
ghost use Rattle.vortex_scan.specs.Fetching.{numbers};
ghost use Rattle.vortex_scan.specs.Numbers.{repeats};
ghost use Rattle.vortex_scan.specs.Steps.{Computes, Follows, Settles, Visits, child_of, computed};
ghost use Rattle.vortex_scan.specs.Fails.{FollowFails, FollowGives, IsGiven, VisitFails, VisitGives};
ghost use Rattle.vortex_scan.specs.Sources.{KeepsEach};
ghost use Rattle.vortex_scan.specs.RunState.{live_with};
ghost use Rattle.vortex_scan.specs.declared.item.Item.{Item};
ghost use Rattle.vortex_scan.specs.declared.state.State.{State};
ghost use Rattle.vortex_scan.specs.declared.state.Output.{Output};

use crate::errors::{RunError, Visited};
use crate::fetches::Fetches;
use crate::item::{Item, Slot};
use crate::publish::publish;
use crate::retire::retire;
use crate::state::{Output, State};
use crate::worker::Worker;
use std::alloc::{AllocError, Global};
use vortex_array::RecordBatch;
use vortex_io::{IoBatch, IoOwnerId, IoSource};
use vortex_scan_types::{Batch, WorkScope};

// The item at a place computes once.
fn compute<W: Worker>(items: &mut Vec<Item<W>>, at: usize) -> Result<Output<W>, W::Error>
    requires in_range { at < length items.old.items }
    requires needs { (item : Item W) → slice_get items.old.items at ≡ Some item → W.state_is item.work ≡ State.NeedsCompute }
    ensures { (item : Item W) → slice_get items.old.items at ≡ Some item →
        (work : W) × Computes W.Worker item.work result work × (items.new.items ≡ set items.old.items at (computed item work)) }
{
    let item = &mut items[at];
    item.work.compute()
}

// The item at a place parks.
fn park<W>(items: &mut Vec<Item<W>>, at: usize)
    requires in_range { at < length items.old.items }
    ensures { (item : Item W) → slice_get items.old.items at ≡ Some item → items.new.items ≡ set items.old.items at (record item { ready = false }) }
{
    let item = &mut items[at];
    item.ready = false;
}

// The item at a place counts a child.
fn count_child<W>(items: &mut Vec<Item<W>>, at: usize)
    requires in_range { at < length items.old.items }
    requires room { (item : Item W) → slice_get items.old.items at ≡ Some item → item.next < 2 ^ 64 - 1 }
    ensures { (item : Item W) → slice_get items.old.items at ≡ Some item → items.new.items ≡ set items.old.items at (record item { next = item.next + 1 }) }
{
    let item = &mut items[at];
    item.next += 1;
}

// The batch of the item at a place.
fn batch_of<W>(
    alloc: Global,
    items: &[Item<W>],
    at: usize,
    array: RecordBatch,
) -> Result<Visited, AllocError>
    requires in_range { at < length items.now }
    ensures { IfOk result (λ answer. (item : Item W) → slice_get items.now at ≡ Some item →
        answer ≡ Visited.Batch (record { root = item.root; scope = item.scope; place = item.path; array = array })) }
{
    let item = &items[at];
    let place = item.path.copy(alloc)?;
    Ok(Visited::Batch(Batch {
        root: item.root,
        scope: item.scope.copy(),
        place,
        array,
    }))
}

// A child of the item at a place joins.
fn spawn<W: Drop>(
    alloc: Global,
    items: &mut Vec<Item<W>>,
    next_owner: &mut u64,
    at: usize,
    scope: WorkScope,
    work: W,
) -> Result<(), AllocError>
    requires in_range { at < length items.old.items }
    requires room { next_owner.old < 2 ^ 64 - 1 }
    requires next { (item : Item W) → slice_get items.old.items at ≡ Some item → item.next ≤ next_owner.old }
    ensures items { IfOk result (λ _. (item : Item W) → slice_get items.old.items at ≡ Some item →
        items.new.items ≡ set items.old.items at (record item { next = item.next + 1 }) ++ child_of item next_owner.old scope work ∷ []) }
    ensures owners { IfOk result (λ _. next_owner.new ≡ next_owner.old + 1) }
{
    let parent = &items[at];
    let child = Item {
        root: parent.root,
        owner: IoOwnerId(*next_owner),
        scope,
        path: parent.path.followed_by(alloc, parent.next)?,
        next: 0,
        asked: Fetches::new(alloc),
        ready: true,
        work,
    };
    count_child(items, at);
    items.push(child)?;
    *next_owner += 1;
    Ok(())
}

// The item at a place is done, waits or stays ready, as it says.
fn settle<W: Worker, S: IoSource<Payload = W::Payload>>(
    items: &mut Vec<Item<W>>,
    slots: &mut Vec<Slot<S>>,
    at: usize,
) -> Result<Visited, RunError<W::Error>>
    requires in_range { at < length items.old.items }
    requires known { (item : Item W) → slice_get items.old.items at ≡ Some item → item.root.0 < length slots.old.items }
    ensures ok { IfOk result (λ answer. (item : Item W) (owners : ℕ) → slice_get items.old.items at ≡ Some item →
        Settles S.IoSource (W.state_is item.work) at item (live_with items.old.items slots.old.items owners) (live_with items.new.items slots.new.items owners) answer) }
    ensures err { IfErr result (λ error. (item : Item W) → slice_get items.old.items at ≡ Some item →
        (error ≡ RunError.WaitsForNothing) × (W.state_is item.work ≡ State.Waiting) × (item.asked ≡ [])) }
    ensures given { IfErr result (λ _. slots.new.items ≡ slots.old.items) }
    ensures sources { KeepsEach S.IoSource slots.old.items slots.new.items }
{
    let item = &items[at];
    match item.work.state() {
        State::Done => Ok(retire(items, slots, at)),
        State::NeedsCompute => Ok(Visited::Went),
        State::Waiting => {
            if item.asked.is_empty() {
                return Err(RunError::WaitsForNothing);
            }
            park(items, at);
            Ok(Visited::Went)
        }
    }
}

// The item at a place publishes a batch, and is then settled.
fn ask_for<W: Worker, S: IoSource<Payload = W::Payload>>(
    items: &mut Vec<Item<W>>,
    slots: &mut Vec<Slot<S>>,
    at: usize,
    batch: IoBatch,
) -> Result<Visited, RunError<W::Error>>
    requires in_range { at < length items.old.items }
    requires known { (item : Item W) → slice_get items.old.items at ≡ Some item → item.root.0 < length slots.old.items }
    requires distinct { (item : Item W) → slice_get items.old.items at ≡ Some item → repeats (numbers item.asked) ≡ false }
    ensures ok { IfOk result (λ answer. (item : Item W) (owners : ℕ) → slice_get items.old.items at ≡ Some item →
        Follows W.Worker S.IoSource (Output.NeedsIO batch) at item (live_with items.old.items slots.old.items owners) (live_with items.new.items slots.new.items owners) answer) }
    ensures err { IfErr result (λ error. (item : Item W) (owners : ℕ) → slice_get items.old.items at ≡ Some item →
        FollowFails W.Worker S.IoSource (Ok (Output.NeedsIO batch)) item (live_with items.old.items slots.old.items owners) (live_with items.new.items slots.new.items owners) error) }
    ensures given { IfErr result (λ _. (item : Item W) → slice_get items.old.items at ≡ Some item → (slots.new.items ≡ slots.old.items) ⊎ IsGiven S.IoSource item batch slots.old.items slots.new.items) }
    ensures sources { KeepsEach S.IoSource slots.old.items slots.new.items }
{
    publish(items, slots, at, batch)?;
    settle(items, slots, at)
}

// A child of the item at a place joins, if an owner number is left.
fn emit<W: Drop, E>(
    alloc: Global,
    items: &mut Vec<Item<W>>,
    next_owner: &mut u64,
    at: usize,
    scope: WorkScope,
    work: W,
) -> Result<Visited, RunError<E>>
    requires in_range { at < length items.old.items }
    requires next { (item : Item W) → slice_get items.old.items at ≡ Some item → item.next ≤ next_owner.old }
    ensures went { IfOk result (λ answer. (answer ≡ Visited.Went) × (next_owner.old < 2 ^ 64 - 1) × (next_owner.new ≡ next_owner.old + 1)) }
    ensures items { IfOk result (λ _. (item : Item W) → slice_get items.old.items at ≡ Some item →
        items.new.items ≡ set items.old.items at (record item { next = item.next + 1 }) ++ child_of item next_owner.old scope work ∷ []) }
    ensures err { IfErr result (λ error. (error ≡ RunError.OutOfMemory) ⊎ ((error ≡ RunError.IdsExhausted) × (next_owner.old ≡ 2 ^ 64 - 1))) }
{
    if *next_owner == u64::MAX {
        return Err(RunError::IdsExhausted);
    }
    match spawn(alloc, items, next_owner, at, scope, work) {
        Ok(()) => Ok(Visited::Went),
        Err(_) => Err(RunError::OutOfMemory),
    }
}

// The item at a place gives a batch, which has rows.
fn give<W, E>(
    alloc: Global,
    items: &[Item<W>],
    at: usize,
    array: RecordBatch,
) -> Result<Visited, RunError<E>>
    requires in_range { at < length items.now }
    ensures rows { IfOk result (λ _. array.rows ≢ 0) }
    ensures answer { IfOk result (λ answer. (item : Item W) → slice_get items.now at ≡ Some item →
        answer ≡ Visited.Batch (record { root = item.root; scope = item.scope; place = item.path; array = array })) }
    ensures err { IfErr result (λ error. (error ≡ RunError.OutOfMemory) ⊎ ((error ≡ RunError.EmptyBatch) × (array.rows ≡ 0))) }
{
    if array.rows() == 0 {
        return Err(RunError::EmptyBatch);
    }
    match batch_of(alloc, items, at, array) {
        Ok(answer) => Ok(answer),
        Err(_) => Err(RunError::OutOfMemory),
    }
}

// What an answer of the item at a place leads to.
fn follow<W: Worker, S: IoSource<Payload = W::Payload>>(
    alloc: Global,
    items: &mut Vec<Item<W>>,
    slots: &mut Vec<Slot<S>>,
    next_owner: &mut u64,
    at: usize,
    output: Output<W>,
) -> Result<Visited, RunError<W::Error>>
    requires in_range { at < length items.old.items }
    requires known { (item : Item W) → slice_get items.old.items at ≡ Some item → item.root.0 < length slots.old.items }
    requires distinct { (item : Item W) → slice_get items.old.items at ≡ Some item → repeats (numbers item.asked) ≡ false }
    requires next { (item : Item W) → slice_get items.old.items at ≡ Some item → item.next ≤ next_owner.old }
    ensures ok { IfOk result (λ answer. (item : Item W) → slice_get items.old.items at ≡ Some item →
        Follows W.Worker S.IoSource output at item (live_with items.old.items slots.old.items next_owner.old) (live_with items.new.items slots.new.items next_owner.new) answer) }
    ensures err { IfErr result (λ error. (item : Item W) → slice_get items.old.items at ≡ Some item →
        FollowFails W.Worker S.IoSource (Ok output) item (live_with items.old.items slots.old.items next_owner.old) (live_with items.new.items slots.new.items next_owner.new) error) }
    ensures given { IfErr result (λ _. (item : Item W) → slice_get items.old.items at ≡ Some item → FollowGives {E = W.Error} S.IoSource (Ok output) item slots.old.items slots.new.items) }
    ensures sources { KeepsEach S.IoSource slots.old.items slots.new.items }
{
    match output {
        Output::Done => Ok(retire(items, slots, at)),
        Output::Continue => Ok(Visited::Went),
        Output::NeedsIO(batch) => ask_for(items, slots, at, batch),
        Output::Child(scope, work) => emit(alloc, items, next_owner, at, scope, work),
        Output::Batch(array) => give(alloc, items, at, array),
    }
}

/// Visits the item at a place.
pub fn visit<W: Worker, S: IoSource<Payload = W::Payload>>(
    alloc: Global,
    items: &mut Vec<Item<W>>,
    slots: &mut Vec<Slot<S>>,
    next_owner: &mut u64,
    at: usize,
) -> Result<Visited, RunError<W::Error>>
    requires in_range { at < length items.old.items }
    requires known { (item : Item W) → slice_get items.old.items at ≡ Some item → item.root.0 < length slots.old.items }
    requires distinct { (item : Item W) → slice_get items.old.items at ≡ Some item → repeats (numbers item.asked) ≡ false }
    requires next { (item : Item W) → slice_get items.old.items at ≡ Some item → item.next ≤ next_owner.old }
    ensures ok { IfOk result (λ answer. (item : Item W) → slice_get items.old.items at ≡ Some item →
        Visits W.Worker S.IoSource (W.state_is item.work) at item (live_with items.old.items slots.old.items next_owner.old) (live_with items.new.items slots.new.items next_owner.new) answer) }
    ensures err { IfErr result (λ error. (item : Item W) → slice_get items.old.items at ≡ Some item →
        VisitFails W.Worker S.IoSource (W.state_is item.work) at item (live_with items.old.items slots.old.items next_owner.old) (live_with items.new.items slots.new.items next_owner.new) error) }
    ensures given { IfErr result (λ _. (item : Item W) → slice_get items.old.items at ≡ Some item →
        VisitGives W.Worker S.IoSource (W.state_is item.work) item slots.old.items slots.new.items) }
    ensures sources { KeepsEach S.IoSource slots.old.items slots.new.items }
{
    let item = &items[at];
    let root = item.root;
    match item.work.state() {
        State::Done => Ok(retire(items, slots, at)),
        State::Waiting => settle(items, slots, at),
        State::NeedsCompute => match compute(items, at) {
            Ok(output) => follow(alloc, items, slots, next_owner, at, output),
            Err(error) => Err(RunError::Planner(root, error)),
        },
    }
}
