// Sources that are asked and waited for.
ghost use Rattle.std.specs.Prelude.{◌≡◌, ℕ, ◌+◌, ◌<◌, ◌||◌, true, length, slice_get, Some, Option, is_some, IfOk, IfErr, MatchOption};
ghost use Rattle.vortex_io.specs.declared.request.Completion.{Completion};
ghost use Rattle.vortex_scan.specs.Steps.{Asks, WaitsFor};
ghost use Rattle.vortex_scan.specs.Fails.{AskFails, WaitFails};
ghost use Rattle.vortex_scan.specs.Asking.{AskingFails, AsksLive, AsksOnce, FirstOf, IsAsking, IsFirstAsking, is_live, root_at};
ghost use Rattle.vortex_scan.specs.Going.{AskingOutFails, AsksAll, AsksOut, AsksOutFails};
ghost use Rattle.vortex_scan.specs.Sources.{KeepsEach};
ghost use Rattle.vortex_scan.specs.RunState.{live_with};
ghost use Rattle.vortex_scan.specs.declared.item.Slot.{Slot};

use crate::deliver::deliver;
use crate::errors::RunError;
use crate::item::{Item, Slot};
use crate::sources;
use crate::worker::Worker;
use vortex_io::{IoError, IoSource};
use vortex_scan_types::RootId;

/// Asks the source of a live root once, and delivers what comes.
pub fn ask<W: Worker, S: IoSource<Payload = W::Payload>>(
    items: &mut Vec<Item<W>>,
    slots: &mut Vec<Slot<S>>,
    root: RootId,
) -> Result<bool, RunError<W::Error>>
    requires in_range { root.0 < length slots.old.items }
    requires live { (slot : Slot S) → slice_get slots.old.items root.0 ≡ Some slot → slot.live ≡ true }
    ensures ok { IfOk result (λ came. (owners : ℕ) → (answer : Option (Completion W.Payload))
        × Asks W.Worker S.IoSource W.Payload.Payload root answer (live_with items.old.items slots.old.items owners) (live_with items.new.items slots.new.items owners) × (came ≡ is_some answer)) }
    ensures err { IfErr result (λ error. (owners : ℕ) →
        AskFails W.Worker S.IoSource W.Payload.Payload root (live_with items.old.items slots.old.items owners) (live_with items.new.items slots.new.items owners) error) }
    ensures sources { KeepsEach S.IoSource slots.old.items slots.new.items }
{
    let slot = &mut slots[root.0 as usize];
    match sources::poll(&mut slot.source) {
        Ok(Some(completion)) => match deliver(items, root, completion) {
            Ok(()) => Ok(true),
            Err(error) => Err(error),
        },
        Ok(None) => Ok(false),
        Err(IoError::Fault) => Err(RunError::Source(root)),
        Err(IoError::OutOfMemory) => Err(RunError::OutOfMemory),
    }
}

/// Waits for the source of a live root, at which something is outstanding, and delivers what comes.
pub fn wait_for<W: Worker, S: IoSource<Payload = W::Payload>>(
    items: &mut Vec<Item<W>>,
    slots: &mut Vec<Slot<S>>,
    root: RootId,
) -> Result<(), RunError<W::Error>>
    requires in_range { root.0 < length slots.old.items }
    requires live { (slot : Slot S) → slice_get slots.old.items root.0 ≡ Some slot → slot.live ≡ true }
    requires outstanding { (slot : Slot S) → slice_get slots.old.items root.0 ≡ Some slot → 0 < length (S.outstanding slot.source) }
    ensures ok { IfOk result (λ _. (owners : ℕ) →
        WaitsFor W.Worker S.IoSource W.Payload.Payload root (live_with items.old.items slots.old.items owners) (live_with items.new.items slots.new.items owners)) }
    ensures err { IfErr result (λ error. (owners : ℕ) →
        WaitFails W.Worker S.IoSource W.Payload.Payload root (live_with items.old.items slots.old.items owners) (live_with items.new.items slots.new.items owners) error) }
    ensures sources { KeepsEach S.IoSource slots.old.items slots.new.items }
{
    let slot = &mut slots[root.0 as usize];
    match sources::wait(&mut slot.source) {
        Ok(completion) => match deliver(items, root, completion) {
            Ok(()) => Ok(()),
            Err(error) => Err(error),
        },
        Err(IoError::Fault) => Err(RunError::Source(root)),
        Err(IoError::OutOfMemory) => Err(RunError::OutOfMemory),
    }
}

// Asks the source of a root once, where the root is live.
fn ask_if_live<W: Worker, S: IoSource<Payload = W::Payload>>(
    items: &mut Vec<Item<W>>,
    slots: &mut Vec<Slot<S>>,
    root: usize,
) -> Result<bool, RunError<W::Error>>
    requires { root < length slots.old.items }
    ensures ok { IfOk result (λ came. (owners : ℕ) →
        AsksLive W.Worker S.IoSource W.Payload.Payload root (is_live (slice_get slots.old.items root)) (live_with items.old.items slots.old.items owners) (live_with items.new.items slots.new.items owners) came) }
    ensures err { IfErr result (λ error. (owners : ℕ) → (is_live (slice_get slots.old.items root) ≡ true)
        × AskFails W.Worker S.IoSource W.Payload.Payload (root_at root) (live_with items.old.items slots.old.items owners) (live_with items.new.items slots.new.items owners) error) }
    ensures sources { KeepsEach S.IoSource slots.old.items slots.new.items }
{
    if !slots[root].live {
        return Ok(false);
    }
    ask(items, slots, RootId(root as u64))
}

// Whether one of two holds.
fn either(one: bool, other: bool) -> bool
    ensures { result ≡ (one || other) }
{
    one || other
}

/// Asks each live root's source once, in order of admission. The answer is whether one gave something.
pub fn ask_once<W: Worker, S: IoSource<Payload = W::Payload>>(
    items: &mut Vec<Item<W>>,
    slots: &mut Vec<Slot<S>>,
) -> Result<bool, RunError<W::Error>>
    ensures ok { IfOk result (λ came. (owners : ℕ) →
        AsksOnce W.Worker S.IoSource W.Payload.Payload (length slots.old.items) (live_with items.old.items slots.old.items owners) (live_with items.new.items slots.new.items owners) came) }
    ensures err { IfErr result (λ error. (owners : ℕ) →
        AskingFails W.Worker S.IoSource W.Payload.Payload (live_with items.old.items slots.old.items owners) (live_with items.new.items slots.new.items owners) error) }
    ensures sources { KeepsEach S.IoSource slots.old.items slots.new.items }
{
    let mut came = false;
    for root in 0..slots.len() {
        let here = match ask_if_live(items, slots, root) {
            Ok(here) => here,
            Err(error) => return Err(error),
        };
        came = either(came, here);
    }
    Ok(came)
}

// Asks the source of a live root until it gives nothing.
fn ask_out<W: Worker, S: IoSource<Payload = W::Payload>>(
    items: &mut Vec<Item<W>>,
    slots: &mut Vec<Slot<S>>,
    root: RootId,
) -> Result<(), RunError<W::Error>>
    requires in_range { root.0 < length slots.old.items }
    requires live { (slot : Slot S) → slice_get slots.old.items root.0 ≡ Some slot → slot.live ≡ true }
    ensures ok { IfOk result (λ _. (owners : ℕ) →
        AsksOut W.Worker S.IoSource W.Payload.Payload root.0 true (live_with items.old.items slots.old.items owners) (live_with items.new.items slots.new.items owners)) }
    ensures err { IfErr result (λ error. (owners : ℕ) →
        AsksOutFails W.Worker S.IoSource W.Payload.Payload root.0 (live_with items.old.items slots.old.items owners) (live_with items.new.items slots.new.items owners) error) }
    ensures sources { KeepsEach S.IoSource slots.old.items slots.new.items }
{
    'asking: loop {
        let came = match ask(items, slots, root) {
            Ok(came) => came,
            Err(error) => return Err(error),
        };
        if !came {
            return Ok(());
        }
    }
}

// Asks the source of a root until it gives nothing, where the root is live.
fn ask_out_if_live<W: Worker, S: IoSource<Payload = W::Payload>>(
    items: &mut Vec<Item<W>>,
    slots: &mut Vec<Slot<S>>,
    root: usize,
) -> Result<(), RunError<W::Error>>
    requires { root < length slots.old.items }
    ensures ok { IfOk result (λ _. (owners : ℕ) →
        AsksOut W.Worker S.IoSource W.Payload.Payload root (is_live (slice_get slots.old.items root)) (live_with items.old.items slots.old.items owners) (live_with items.new.items slots.new.items owners)) }
    ensures err { IfErr result (λ error. (owners : ℕ) → (is_live (slice_get slots.old.items root) ≡ true)
        × AsksOutFails W.Worker S.IoSource W.Payload.Payload root (live_with items.old.items slots.old.items owners) (live_with items.new.items slots.new.items owners) error) }
    ensures sources { KeepsEach S.IoSource slots.old.items slots.new.items }
{
    if !slots[root].live {
        return Ok(());
    }
    ask_out(items, slots, RootId(root as u64))
}

/// Asks each live root's source until it gives nothing, in order of admission.
pub fn ask_all<W: Worker, S: IoSource<Payload = W::Payload>>(
    items: &mut Vec<Item<W>>,
    slots: &mut Vec<Slot<S>>,
) -> Result<(), RunError<W::Error>>
    ensures ok { IfOk result (λ _. (owners : ℕ) →
        AsksAll W.Worker S.IoSource W.Payload.Payload (length slots.old.items) (live_with items.old.items slots.old.items owners) (live_with items.new.items slots.new.items owners)) }
    ensures err { IfErr result (λ error. (owners : ℕ) →
        AskingOutFails W.Worker S.IoSource W.Payload.Payload (live_with items.old.items slots.old.items owners) (live_with items.new.items slots.new.items owners) error) }
    ensures sources { KeepsEach S.IoSource slots.old.items slots.new.items }
{
    for root in 0..slots.len() {
        match ask_out_if_live(items, slots, root) {
            Ok(()) => {}
            Err(error) => return Err(error),
        }
    }
    Ok(())
}

// The earlier of the first root so far and an item's, if the item has a fetch outstanding.
fn earlier<W>(items: &[Item<W>], i: usize, best: Option<RootId>) -> Option<RootId>
    requires in_range { i < length items.now }
    requires so_far { FirstOf items.now i best }
    ensures { FirstOf items.now (i + 1) result }
{
    let item = &items[i];
    if item.asked.is_empty() {
        return best;
    }
    let Some(root) = best else {
        return Some(item.root)
    };
    if root.0 <= item.root.0 {
        return Some(root);
    }
    Some(item.root)
}

/// The first root, in order of admission, that has an item with a fetch outstanding, if there is one.
pub fn first_asking<W>(items: &[Item<W>]) -> Option<RootId>
    ensures { MatchOption result ((root : ℕ) → ¬ IsAsking items.now root) (λ root. IsFirstAsking items.now root.0) }
{
    let mut best: Option<RootId> = None;
    for i in 0..items.len() {
        best = earlier(items, i, best);
    }
    best
}
