// What an item asks of its root's source.
ghost use Rattle.std.specs.Prelude.{◌≡◌, ◌≢◌, ℕ, ◌+◌, ◌<◌, ◌⊎◌, ◌++◌, [], false, true, length, slice_get, Some, Result, Ok, Err, IfOk, IfErr, OnOk, MatchResult};
ghost use Rattle.std.proofs.Math.ListN.{set};
ghost use Rattle.vortex_scan.specs.Fetching.{numbers};
ghost use Rattle.vortex_scan.specs.Numbers.{repeats};
ghost use Rattle.vortex_scan.specs.Steps.{Publishes, published};
ghost use Rattle.vortex_io.specs.declared.request.IoError.{IoError};
ghost use Rattle.vortex_scan.specs.Fails.{IsGiven, SubmitFaults};
ghost use Rattle.vortex_scan.specs.Sources.{KeepsEach, Submits};
ghost use Rattle.vortex_scan.specs.RunState.{live_with};
ghost use Rattle.vortex_scan.specs.declared.item.Item.{Item};
ghost use Rattle.vortex_scan.specs.declared.item.Slot.{Slot};

use crate::errors::RunError;
use crate::item::{Item, Slot};
use crate::sources;
use std::alloc::AllocError;
use vortex_io::{IoBatch, IoError, IoOwnerId, IoRequest, IoSource};
use vortex_scan_types::RootId;

// The item at a place notes a batch's fetches. The answer is false where a number would stand twice.
fn note<W>(items: &mut Vec<Item<W>>, at: usize, batch: &[IoRequest]) -> Result<bool, AllocError>
    requires in_range { at < length items.old.items }
    requires distinct { (item : Item W) → slice_get items.old.items at ≡ Some item → repeats (numbers item.asked) ≡ false }
    ensures long { length items.new.items ≡ length items.old.items }
    ensures noted { result ≡ Ok true → (item : Item W) → slice_get items.old.items at ≡ Some item → items.new.items ≡ set items.old.items at (published item batch.now) }
    ensures fresh { result ≡ Ok true → (item : Item W) → slice_get items.old.items at ≡ Some item → repeats (numbers (published item batch.now).asked) ≡ false }
    ensures repeated { result ≡ Ok false → (item : Item W) → slice_get items.old.items at ≡ Some item → repeats (numbers (published item batch.now).asked) ≡ true }
{
    let item = &mut items[at];
    item.asked.add_all(item.owner, batch)
}

// The source of a root is given an owner's batch.
fn submit_to<S: IoSource, E>(
    slots: &mut Vec<Slot<S>>,
    root: RootId,
    owner: IoOwnerId,
    batch: IoBatch,
) -> Result<(), RunError<E>>
    requires { root.0 < length slots.old.items }
    ensures ok { IfOk result (λ _. (slot : Slot S) → slice_get slots.old.items root.0 ≡ Some slot →
        (after : S) × Submits S.IoSource owner batch (Ok tt) slot.source after × (slots.new.items ≡ set slots.old.items root.0 (record slot { source = after }))) }
    ensures err { IfErr result (λ error. (error ≡ RunError.OutOfMemory) ⊎ ((error ≡ RunError.Source root) × ((slot : Slot S) → slice_get slots.old.items root.0 ≡ Some slot →
        (after : S) × Submits S.IoSource owner batch (Err IoError.Fault) slot.source after × (slots.new.items ≡ set slots.old.items root.0 (record slot { source = after }))))) }
    ensures given { IfErr result (λ _. (slot : Slot S) → slice_get slots.old.items root.0 ≡ Some slot → (cause : IoError)
        × (after : S) × Submits S.IoSource owner batch (Err cause) slot.source after × (slots.new.items ≡ set slots.old.items root.0 (record slot { source = after }))) }
    ensures sources { KeepsEach S.IoSource slots.old.items slots.new.items }
{
    let slot = &mut slots[root.0 as usize];
    match sources::submit(&mut slot.source, owner, batch) {
        Ok(()) => Ok(()),
        Err(IoError::Fault) => Err(RunError::Source(root)),
        Err(IoError::OutOfMemory) => Err(RunError::OutOfMemory),
    }
}

/// The item at a place publishes a batch. Its fetches are noted before the source has them, so that the source is asked for nothing that
/// cannot be noted.
pub fn publish<W, S: IoSource, E>(
    items: &mut Vec<Item<W>>,
    slots: &mut Vec<Slot<S>>,
    at: usize,
    batch: IoBatch,
) -> Result<(), RunError<E>>
    requires in_range { at < length items.old.items }
    requires known { (item : Item W) → slice_get items.old.items at ≡ Some item → item.root.0 < length slots.old.items }
    requires distinct { (item : Item W) → slice_get items.old.items at ≡ Some item → repeats (numbers item.asked) ≡ false }
    ensures ok { IfOk result (λ _. (item : Item W) (owners : ℕ) → slice_get items.old.items at ≡ Some item →
        Publishes S.IoSource at item batch (live_with items.old.items slots.old.items owners) (live_with items.new.items slots.new.items owners)) }
    ensures err { IfErr result (λ error. (item : Item W) (owners : ℕ) → slice_get items.old.items at ≡ Some item →
        (error ≡ RunError.OutOfMemory) ⊎ (((error ≡ RunError.EmptyIo) × (batch ≡ [])) ⊎ (((error ≡ RunError.Republished) × (repeats (numbers (published item batch).asked) ≡ true))
        ⊎ ((error ≡ RunError.Source item.root) × SubmitFaults S.IoSource item batch (live_with items.old.items slots.old.items owners) (live_with items.new.items slots.new.items owners))))) }
    ensures given { IfErr result (λ _. (item : Item W) → slice_get items.old.items at ≡ Some item → (slots.new.items ≡ slots.old.items) ⊎ IsGiven S.IoSource item batch slots.old.items slots.new.items) }
    ensures sources { KeepsEach S.IoSource slots.old.items slots.new.items }
{
    if batch.len() == 0 {
        return Err(RunError::EmptyIo);
    }
    let Ok(noted) = note(items, at, batch.as_slice()) else {
        return Err(RunError::OutOfMemory)
    };
    if !noted {
        return Err(RunError::Republished);
    }
    let item = &items[at];
    submit_to(slots, item.root, item.owner, batch)
}
