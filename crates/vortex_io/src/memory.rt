// A source whose chunks are in memory.
ghost use Rattle.std.specs.Prelude.{◌≡◌, [], Some, false, map, IsSome};
ghost use Rattle.vortex_io.specs.Orders.{first_number, order_of};
ghost use Rattle.vortex_io.specs.Source.{chunk_at};

use super::batch::IoBatch;
use super::held::{
    add_fetches, add_submissions, asks_outside, complete_next, make_room, remove_fetches,
};
use super::ids::IoOwnerId;
use super::order::{Arrive, after_pick, answers_polls, starting};
use super::payload::Payload;
use super::request::{Completion, Fetch, IoError, JournalEntry};
use super::source::IoSource;
use std::alloc::Global;
use std::collections::VecDeque;
use std::marker::Model;

/// A source that keeps its chunks in memory, by split and by column, and completes a fetch with a copy of its chunk. It
/// fails only at a fetch of a chunk that it lacks.
pub struct MemorySource<C: Payload> {
    alloc: Global,
    chunks: Vec<Vec<C>>,
    arrive: Arrive,
    number: u64,
    outstanding: VecDeque<Fetch>,
    journal: Vec<JournalEntry>,
    faults: u64,
    quiet: u64,
    stale: bool,
}

impl<C: Payload + Drop> Drop for MemorySource<C> {
    fn drop(self) {
        let MemorySource {
            alloc: _alloc,
            chunks: _chunks,
            arrive: _arrive,
            number: _number,
            outstanding: _outstanding,
            journal: _journal,
            faults: _faults,
            quiet: _quiet,
            stale: _stale,
        } = self;
    }
}

impl<C: Payload> Model for MemorySource<C> {
    ghost use Rattle.std.specs.Prelude.{map};
    ghost use Rattle.vortex_io.specs.Memory.{MemoryState, AreHeld, columns_of};

    ghost Value = { MemoryState C };

    ghost view = { λ s. record { chunks = map columns_of s.chunks.items; arrive = s.arrive; number = s.number; outstanding = s.outstanding.items; journal = s.journal.items; faults = s.faults; quiet = s.quiet; stale = s.stale } };

    ghost invariant = { λ s. AreHeld (map columns_of s.chunks.items) s.outstanding.items };
}

impl<C: Payload> MemorySource<C> {
    ghost use Rattle.vortex_io.specs.Memory.{columns_of};

    /// A source of these chunks, by split and by column, with nothing outstanding. It takes no memory.
    pub fn new(alloc: Global, chunks: Vec<Vec<C>>, arrive: Arrive) -> MemorySource<C>
        ensures { result ≡ record { chunks = map columns_of chunks.items; arrive = arrive; number = first_number (order_of arrive); outstanding = []; journal = []; faults = 0; quiet = 0; stale = false } }
    {
        MemorySource {
            alloc,
            chunks,
            arrive,
            number: starting(arrive),
            outstanding: VecDeque::new(alloc),
            journal: Vec::new(alloc),
            faults: 0,
            quiet: 0,
            stale: false,
        }
    }

    /// The chunk of a column in a split. Both have to be in range.
    pub fn chunk(&self, split: usize, column: usize) -> &C
        requires { IsSome (chunk_at self.now.chunks split column) }
        ensures { chunk_at self.now.chunks split column ≡ Some result.now }
    {
        &self.chunks[split][column]
    }

    /// When fetches are completed, and in which order.
    pub fn arrive(&self) -> Arrive
        ensures { result ≡ self.now.arrive }
    {
        self.arrive
    }

    /// What was submitted so far, and when the source waited.
    pub fn journal(&self) -> &[JournalEntry]
        ensures { result.now ≡ self.now.journal }
    {
        self.journal.as_slice()
    }

    /// How often a batch was refused for a fetch of a chunk that the source lacks.
    pub fn faults(&self) -> u64
        ensures { result ≡ self.now.faults }
    {
        self.faults
    }
}

impl<C: Payload> IoSource for MemorySource<C> {
    ghost use Rattle.std.specs.Prelude.{true};
    ghost use Rattle.vortex_io.specs.Source.{without_owner};
    ghost use Rattle.vortex_io.specs.Memory.{SubmitsInMemory, PollsInMemory, WaitsInMemory};

    type Payload = C;

    ghost outstanding = { λ s. s.outstanding };

    ghost content = { λ s. Some s.chunks };

    ghost journal = { λ s. Some s.journal };

    ghost faults = { λ s. s.faults };

    ghost lies = { λ _. 0 };

    ghost quiet = { λ s. s.quiet };

    ghost stale = { λ s. s.stale };

    ghost sure = { λ _. true };

    ghost submits = { SubmitsInMemory };

    ghost polls = { PollsInMemory C.means };

    ghost waits = { WaitsInMemory C.means };

    ghost releases = { λ old owner new. new ≡ record old { outstanding = without_owner owner old.outstanding } };

    ghost clears = { λ old new. new ≡ record old { outstanding = [] } };

    fn submit(&mut self, owner: IoOwnerId, batch: IoBatch) -> Result<(), IoError> {
        let requests = batch.as_slice();
        if asks_outside(&self.chunks, requests) {
            self.faults = self.faults.saturating_add(1);
            return Err(IoError::Fault);
        }
        make_room(&mut self.outstanding, &mut self.journal, requests.len())?;
        add_fetches(&mut self.outstanding, owner, requests);
        add_submissions(&mut self.journal, owner, requests);
        self.stale = true;
        Ok(())
    }

    fn poll(&mut self) -> Result<Option<Completion<C>>, IoError> {
        if !answers_polls(self.arrive) || self.outstanding.is_empty() {
            self.quiet = self.quiet.saturating_add(1);
            self.stale = false;
            return Ok(None);
        }
        let completion = complete_next(
            self.alloc,
            &self.chunks,
            &mut self.outstanding,
            self.arrive,
            self.number,
        )?;
        self.number = after_pick(self.arrive, self.number);
        Ok(Some(completion))
    }

    fn wait(&mut self) -> Result<Completion<C>, IoError> {
        self.journal.reserve(1)?;
        let completion = complete_next(
            self.alloc,
            &self.chunks,
            &mut self.outstanding,
            self.arrive,
            self.number,
        )?;
        self.number = after_pick(self.arrive, self.number);
        self.journal.push_reserved(JournalEntry::Waited);
        Ok(completion)
    }

    fn release(&mut self, owner: IoOwnerId) {
        remove_fetches(&mut self.outstanding, owner);
    }

    fn clear(&mut self) {
        self.outstanding.clear();
    }
}
