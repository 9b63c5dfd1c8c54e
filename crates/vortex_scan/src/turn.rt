// One turn of taking a run forward, and as many as it takes.
ghost use Rattle.std.specs.Prelude.{◌≡◌, ◌≢◌, ◌⊎◌, ℕ, ◌+◌, ◌<◌, ◌≤◌, option_map, [], true, false, IfOk, IfErr};
ghost use Rattle.vortex_scan.specs.Going.{AdvanceFails, Advances, AskingFailsThen, AsksIfDue, SomeReady, TurnFails, TurnsTo, VisitingFails, state_with};
ghost use Rattle.vortex_scan.specs.Visits.{came_to, is_due};
ghost use Rattle.vortex_scan.specs.Fits.{LiveFits, visits_since};
ghost use Rattle.vortex_scan.specs.Keys.{IsLeastReady};
ghost use Rattle.vortex_scan.specs.Sources.{KeepsEach};
ghost use Rattle.vortex_scan.specs.Steps.{VisitsLeast};
ghost use Rattle.vortex_scan.specs.RunState.{NothingReady, live_with};
ghost use Rattle.vortex_scan.specs.declared.errors.Visited.{Visited};
ghost use Rattle.vortex_scan.specs.declared.item.Item.{Item};

use crate::ask::ask_all;
use crate::counts::{Counts, is_due};
use crate::errors::{Progress, RunError, Visited};
use crate::item::{Item, Slot};
use crate::least::least_ready;
use crate::visit::visit;
use crate::worker::Worker;
use std::alloc::Global;
use vortex_io::IoSource;

// Whether all sources are to be asked: it is time, or no item is ready.
fn is_to_ask<W>(items: &[Item<W>], since: Option<u64>) -> bool
    ensures asks { result ≡ true → (is_due since ≡ true) ⊎ NothingReady items.now }
    ensures goes_on { result ≡ false → (is_due since ≡ false) × SomeReady items.now }
{
    if is_due(since) {
        return true;
    }
    match least_ready(items) {
        Some(_) => false,
        None => true,
    }
}

// Asks all sources where it is time, or where no item is ready. The answer is whether they were asked.
fn ask_if_due<W: Worker, S: IoSource<Payload = W::Payload>>(
    items: &mut Vec<Item<W>>,
    slots: &mut Vec<Slot<S>>,
    counts: &mut Counts,
) -> Result<bool, RunError<W::Error>>
    ensures ok { IfOk result (λ asked. (owners roots : ℕ) →
        AsksIfDue W.Worker S.IoSource W.Payload.Payload asked (state_with items.old.items slots.old.items owners counts.old roots) (state_with items.new.items slots.new.items owners counts.new roots)) }
    ensures err { IfErr result (λ error. (owners roots : ℕ) →
        AskingFailsThen W.Worker S.IoSource W.Payload.Payload (state_with items.old.items slots.old.items owners counts.old roots) (state_with items.new.items slots.new.items owners counts.new roots) error) }
    ensures room { IfOk result (λ _. visits_since counts.new.since < 64) }
    ensures sources { KeepsEach S.IoSource slots.old.items slots.new.items }
{
    if !is_to_ask(items, counts.since) {
        return Ok(false);
    }
    match ask_all(items, slots) {
        Ok(()) => {}
        Err(error) => return Err(error),
    }
    counts.since = Some(0);
    Ok(true)
}

// One more visit.
fn count_visit(counts: &mut Counts)
    requires room { counts.old.visits < counts.old.limit }
    requires since { visits_since counts.old.since < 64 }
    ensures { counts.new ≡ record counts.old { visits = counts.old.visits + 1; since = option_map (λ visits. visits + 1) counts.old.since } }
{
    counts.visits += 1;
    counts.since = match counts.since {
        None => None,
        Some(visits) => Some(visits + 1),
    };
}

// Visits the ready item with the least key, which stands at a place, where the limit allows it.
fn visit_least<W: Worker, S: IoSource<Payload = W::Payload>>(
    alloc: Global,
    items: &mut Vec<Item<W>>,
    slots: &mut Vec<Slot<S>>,
    next_owner: &mut u64,
    counts: &mut Counts,
    at: usize,
) -> Result<Visited, RunError<W::Error>>
    requires least { (item : Item W) × IsLeastReady items.old.items at item }
    requires fits { LiveFits S.IoSource (live_with items.old.items slots.old.items next_owner.old) }
    requires since { visits_since counts.old.since < 64 }
    ensures ok { IfOk result (λ came. (roots : ℕ) →
        VisitsLeast W.Worker S.IoSource (state_with items.old.items slots.old.items next_owner.old counts.old roots) (state_with items.new.items slots.new.items next_owner.new counts.new roots) came) }
    ensures err { IfErr result (λ error. (roots : ℕ) →
        VisitingFails W.Worker S.IoSource (state_with items.old.items slots.old.items next_owner.old counts.old roots) (state_with items.new.items slots.new.items next_owner.new counts.new roots) error) }
    ensures since { visits_since counts.new.since ≤ 64 }
    ensures sources { KeepsEach S.IoSource slots.old.items slots.new.items }
{
    if counts.visits >= counts.limit {
        return Err(RunError::StepLimit);
    }
    count_visit(counts);
    visit(alloc, items, slots, next_owner, at)
}

// What a visit gives a call to answer, if anything.
fn progress_of(visited: Visited) -> Option<Progress>
    ensures { result ≡ came_to visited }
{
    match visited {
        Visited::Went => None,
        Visited::Batch(batch) => Some(Progress::Batch(batch)),
        Visited::RootDone(root) => Some(Progress::RootDone(root)),
    }
}

// Visits the ready item with the least key, which stands at a place. The answer is what the call answers, if it ends here.
fn visit_and_answer<W: Worker, S: IoSource<Payload = W::Payload>>(
    alloc: Global,
    items: &mut Vec<Item<W>>,
    slots: &mut Vec<Slot<S>>,
    next_owner: &mut u64,
    counts: &mut Counts,
    at: usize,
) -> Result<Option<Progress>, RunError<W::Error>>
    requires least { (item : Item W) × IsLeastReady items.old.items at item }
    requires fits { LiveFits S.IoSource (live_with items.old.items slots.old.items next_owner.old) }
    requires since { visits_since counts.old.since < 64 }
    ensures ok { IfOk result (λ answer. (came : Visited) × (answer ≡ came_to came) × ((roots : ℕ) →
        VisitsLeast W.Worker S.IoSource (state_with items.old.items slots.old.items next_owner.old counts.old roots) (state_with items.new.items slots.new.items next_owner.new counts.new roots) came)) }
    ensures err { IfErr result (λ error. (roots : ℕ) →
        VisitingFails W.Worker S.IoSource (state_with items.old.items slots.old.items next_owner.old counts.old roots) (state_with items.new.items slots.new.items next_owner.new counts.new roots) error) }
    ensures since { visits_since counts.new.since ≤ 64 }
    ensures sources { KeepsEach S.IoSource slots.old.items slots.new.items }
{
    match visit_least(alloc, items, slots, next_owner, counts, at) {
        Ok(visited) => Ok(progress_of(visited)),
        Err(error) => Err(error),
    }
}

// What a call answers where no item is ready: some wait, or none is live.
fn rest<W>(items: &[Item<W>]) -> Progress
    ensures waiting { items.now ≢ [] → result ≡ Progress.Waiting }
    ensures idle { items.now ≡ [] → result ≡ Progress.Idle }
{
    if items.len() == 0 {
        Progress::Idle
    } else {
        Progress::Waiting
    }
}

// Asks all sources where it is time, and then visits the ready item with the least key. The answer is what the call answers, if it ends here.
fn turn<W: Worker, S: IoSource<Payload = W::Payload>>(
    alloc: Global,
    items: &mut Vec<Item<W>>,
    slots: &mut Vec<Slot<S>>,
    next_owner: &mut u64,
    counts: &mut Counts,
) -> Result<Option<Progress>, RunError<W::Error>>
    requires fits { LiveFits S.IoSource (live_with items.old.items slots.old.items next_owner.old) }
    ensures ok { IfOk result (λ answer. (roots : ℕ) →
        TurnsTo W.Worker S.IoSource W.Payload.Payload (state_with items.old.items slots.old.items next_owner.old counts.old roots) (state_with items.new.items slots.new.items next_owner.new counts.new roots) answer) }
    ensures err { IfErr result (λ error. (roots : ℕ) →
        TurnFails W.Worker S.IoSource W.Payload.Payload (state_with items.old.items slots.old.items next_owner.old counts.old roots) (state_with items.new.items slots.new.items next_owner.new counts.new roots) error) }
    ensures since { IfOk result (λ _. visits_since counts.new.since ≤ 64) }
    ensures sources { KeepsEach S.IoSource slots.old.items slots.new.items }
{
    let _asked = match ask_if_due(items, slots, counts) {
        Ok(asked) => asked,
        Err(error) => return Err(error),
    };
    let Some(at) = least_ready(items) else {
        return Ok(Some(rest(items)))
    };
    visit_and_answer(alloc, items, slots, next_owner, counts, at)
}

/// Turns until one has an answer. It ends, since each turn without one makes a visit.
pub fn go_on<W: Worker, S: IoSource<Payload = W::Payload>>(
    alloc: Global,
    items: &mut Vec<Item<W>>,
    slots: &mut Vec<Slot<S>>,
    next_owner: &mut u64,
    counts: &mut Counts,
) -> Result<Progress, RunError<W::Error>>
    requires { LiveFits S.IoSource (live_with items.old.items slots.old.items next_owner.old) }
    ensures ok { IfOk result (λ answer. (roots : ℕ) →
        Advances W.Worker S.IoSource W.Payload.Payload (state_with items.old.items slots.old.items next_owner.old counts.old roots) (state_with items.new.items slots.new.items next_owner.new counts.new roots) answer) }
    ensures err { IfErr result (λ error. (roots : ℕ) →
        AdvanceFails W.Worker S.IoSource W.Payload.Payload (state_with items.old.items slots.old.items next_owner.old counts.old roots) (state_with items.new.items slots.new.items next_owner.new counts.new roots) error) }
    ensures fits { IfOk result (λ _. LiveFits S.IoSource (live_with items.new.items slots.new.items next_owner.new)) }
    ensures since { IfOk result (λ _. visits_since counts.new.since ≤ 64) }
    ensures sources { KeepsEach S.IoSource slots.old.items slots.new.items }
{
    'turns: loop {
        match turn(alloc, items, slots, next_owner, counts) {
            Ok(Some(answer)) => return Ok(answer),
            Ok(None) => {}
            Err(error) => return Err(error),
        }
    }
}
