// What a source in memory does with its parts: its chunks, its outstanding fetches and its journal.
ghost use Rattle.std.specs.Prelude.{◌≡◌, ℕ, ◌+◌, ◌<◌, ◌≤◌, ◌++◌, Some, length, map, remove, slice_get, vec_len, vec_capacity, IsTrue, IfOk, OnOk, OnErr};
ghost use Rattle.std.specs.Option.{option_copied};
ghost use Rattle.std.specs.List.{list_any};
ghost use Rattle.std.specs.VecDeque.{deque_len, deque_capacity};
ghost use Rattle.vortex_io.specs.Source.{fetches, submissions, without_owner, chunk_at, has_target, is_outside, Agrees, Completes};
ghost use Rattle.vortex_io.specs.Orders.{order_of, picked_place};
ghost use Rattle.vortex_io.specs.Memory.{columns_of, AreHeld, Delivers};
ghost use Rattle.vortex_io.specs.declared.request.Fetch.{Fetch};

use super::ids::IoOwnerId;
use super::order::{Arrive, pick};
use super::payload::Payload;
use super::request::{Completion, Fetch, IoIntent, IoRequest, IoResult, IoTarget, JournalEntry};
use std::alloc::{AllocError, Global};
use std::collections::VecDeque;

// The chunk at a place, where there is one.
pub fn chunk_of<C>(chunks: &[Vec<C>], split: u64, column: u64) -> Option<&C>
    ensures { option_copied result ≡ chunk_at (map columns_of chunks.now) split column }
{
    chunks.get(split as usize)?.get(column as usize)
}

// Whether the chunks have a target.
fn has<C>(chunks: &[Vec<C>], target: IoTarget) -> bool
    ensures { result ≡ has_target (map columns_of chunks.now) target }
{
    match target {
        IoTarget::Chunk { split, column } => chunk_of(chunks, split, column).is_some(),
        IoTarget::Size => true,
    }
}

// Whether one of the requests is a fetch of a chunk that is not there.
pub fn asks_outside<C>(chunks: &[Vec<C>], requests: &[IoRequest]) -> bool
    ensures { result ≡ list_any (is_outside (map columns_of chunks.now)) requests.now }
{
    requests.iter().any(|request| request.intent == IoIntent::Fetch && !has(chunks, request.target))
}

// The answer to a target that the chunks have.
fn copy_of<C: Payload>(
    alloc: Global,
    chunks: &[Vec<C>],
    target: IoTarget,
) -> Result<IoResult<C>, AllocError>
    requires { IsTrue (has_target (map columns_of chunks.now) target) }
    ensures { IfOk result (λ copied. Agrees C.means (map columns_of chunks.now) target copied) }
{
    match target {
        IoTarget::Chunk { split, column } => {
            let chunk = &chunks[split as usize][column as usize];
            Ok(IoResult::Chunk(chunk.copy(alloc)?))
        }
        IoTarget::Size => Ok(IoResult::Size(chunks.len() as u64)),
    }
}

// The completion of a fetch of something that the chunks have.
fn completion_of<C: Payload>(
    alloc: Global,
    chunks: &[Vec<C>],
    fetch: Fetch,
) -> Result<Completion<C>, AllocError>
    requires { IsTrue (has_target (map columns_of chunks.now) fetch.target) }
    ensures { IfOk result (λ completion. Delivers C.means (map columns_of chunks.now) fetch completion) }
{
    Ok(Completion {
        owner: fetch.owner,
        request: fetch.request,
        result: copy_of(alloc, chunks, fetch.target)?,
    })
}

// Completes the fetch that is picked next. Without memory it stays.
pub fn complete_next<C: Payload>(
    alloc: Global,
    chunks: &[Vec<C>],
    outstanding: &mut VecDeque<Fetch>,
    arrive: Arrive,
    number: u64,
) -> Result<Completion<C>, AllocError>
    requires some { 0 < deque_len outstanding.old }
    requires held { AreHeld (map columns_of chunks.now) outstanding.old.items }
    ensures ok { IfOk result (λ completion. (fetch : Fetch) × (slice_get outstanding.old.items (picked_place (order_of arrive) number (length outstanding.old.items)) ≡ Some fetch) × Delivers C.means (map columns_of chunks.now) fetch completion) }
    ensures taken { OnOk result (outstanding.new.items ≡ remove outstanding.old.items (picked_place (order_of arrive) number (length outstanding.old.items))) }
    ensures accounts { IfOk result (λ completion. (before now : ℕ) → Completes C.means (Some (map columns_of chunks.now)) outstanding.old.items outstanding.new.items before now completion) }
    ensures left { AreHeld (map columns_of chunks.now) outstanding.new.items }
    ensures err { OnErr result (outstanding.new.items ≡ outstanding.old.items) }
{
    let place = pick(arrive, number, outstanding.len());
    complete(alloc, chunks, outstanding, place)
}

// Completes the fetch at a place. Without memory it stays.
fn complete<C: Payload>(
    alloc: Global,
    chunks: &[Vec<C>],
    outstanding: &mut VecDeque<Fetch>,
    place: usize,
) -> Result<Completion<C>, AllocError>
    requires within { place < deque_len outstanding.old }
    requires held { AreHeld (map columns_of chunks.now) outstanding.old.items }
    ensures ok { IfOk result (λ completion. (fetch : Fetch) × (slice_get outstanding.old.items place ≡ Some fetch) × Delivers C.means (map columns_of chunks.now) fetch completion) }
    ensures taken { OnOk result (outstanding.new.items ≡ remove outstanding.old.items place) }
    ensures accounts { IfOk result (λ completion. (before now : ℕ) → Completes C.means (Some (map columns_of chunks.now)) outstanding.old.items outstanding.new.items before now completion) }
    ensures left { AreHeld (map columns_of chunks.now) outstanding.new.items }
    ensures err { OnErr result (outstanding.new.items ≡ outstanding.old.items) }
{
    let completion = completion_of(alloc, chunks, outstanding[place])?;
    let _ = outstanding.remove(place);
    Ok(completion)
}

// Makes room for as many more fetches and entries, and changes neither list.
pub fn make_room(
    outstanding: &mut VecDeque<Fetch>,
    journal: &mut Vec<JournalEntry>,
    additional: usize,
) -> Result<(), AllocError>
    ensures kept { (outstanding.new.items ≡ outstanding.old.items) × (journal.new.items ≡ journal.old.items) }
    ensures fetches { OnOk result (deque_len outstanding.new + additional ≤ deque_capacity outstanding.new) }
    ensures entries { OnOk result (vec_len journal.new + additional ≤ vec_capacity journal.new) }
{
    outstanding.reserve(additional)?;
    journal.reserve(additional)
}

// Adds the fetches of an owner's batch. There is room.
pub fn add_fetches(outstanding: &mut VecDeque<Fetch>, owner: IoOwnerId, batch: &[IoRequest])
    requires { deque_len outstanding.old + length batch.now ≤ deque_capacity outstanding.old }
    ensures { outstanding.new.items ≡ outstanding.old.items ++ fetches owner batch.now }
{
    for request in batch {
        if request.intent == IoIntent::Fetch {
            outstanding.push_back_reserved(Fetch {
                owner,
                request: request.request,
                target: request.target,
            });
        }
    }
}

// Adds an entry for each request of an owner's batch. There is room.
pub fn add_submissions(journal: &mut Vec<JournalEntry>, owner: IoOwnerId, batch: &[IoRequest])
    requires { vec_len journal.old + length batch.now ≤ vec_capacity journal.old }
    ensures { journal.new.items ≡ journal.old.items ++ submissions owner batch.now }
{
    for request in batch {
        journal.push_reserved(JournalEntry::Submitted(owner, *request));
    }
}

// Takes out an owner's fetches.
pub fn remove_fetches(outstanding: &mut VecDeque<Fetch>, owner: IoOwnerId)
    ensures { outstanding.new.items ≡ without_owner owner outstanding.old.items }
{
    outstanding.retain(|fetch| fetch.owner != owner);
}
