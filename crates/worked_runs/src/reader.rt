// Morsels that read one chunk, and give as many rows as its number says. They keep all rules of morsels.
ghost use Rattle.std.specs.Prelude.{◌≡◌, []};
ghost use Rattle.vortex_io.specs.declared.ids.IoRequestId.{IoRequestId};
ghost use Rattle.worked_runs.specs.Reader.{ReaderTakes, chunk_request, new_reader, reader_names};

use crate::pieces::Cell;
use std::alloc::Global;
use std::marker::Model;
use vortex_array::RecordBatch;
use vortex_io::{
    IoBatch, IoConsumer, IoError, IoIntent, IoRequest, IoRequestId, IoResult, IoTarget,
};
use vortex_scan::{Morsel, MorselOutput, State};

/// A morsel that fetches its split's first chunk, waits for it, and gives as many rows as its number says. It fails by want of memory, and at a chunk of
/// number 0.
pub struct Reader {
    alloc: Global,
    split: u64,
    shown: State,
    given: Option<u64>,
}

impl Drop for Reader {
    fn drop(self) {
        let Reader {
            alloc: _alloc,
            split: _split,
            shown: _shown,
            given: _given,
        } = self;
    }
}

impl Model for Reader {
    ghost use Rattle.worked_runs.specs.Reader.{ReaderState};

    ghost Value = { ReaderState };

    ghost view = { λ r. record { split = r.split; shown = r.shown; given = r.given } };
}

// The fetch of a split's first chunk.
fn fetch_of(split: u64) -> IoRequest
    ensures { result ≡ chunk_request split }
{
    IoRequest {
        intent: IoIntent::Fetch,
        request: IoRequestId(0),
        target: IoTarget::Chunk { split, column: 0 },
    }
}

// So many rows, without columns.
fn rows_alone(alloc: Global, number: u64) -> RecordBatch
    ensures rows { result.rows ≡ number }
    ensures columns { result.columns ≡ [] }
{
    match RecordBatch::try_new(number as usize, Vec::new(alloc)) {
        Ok(array) => array,
        Err(_) => unreachable!(),
    }
}

impl Reader {
    /// A reader of a split's first chunk.
    pub fn new(alloc: Global, split: u64) -> Reader
        ensures { result ≡ new_reader split }
    {
        Reader {
            alloc,
            split,
            shown: State::NeedsCompute,
            given: None,
        }
    }
}

impl IoConsumer for Reader {
    type Payload = Cell;

    ghost takes = { ReaderTakes (λ cell. cell.value) };

    ghost names = { reader_names };

    fn set_io_result(&mut self, request: IoRequestId, outcome: IoResult<Cell>)
        ensures takes { ReaderTakes (λ cell. cell.value) self.old request outcome self.new }
        ensures names { (number : IoRequestId) → reader_names self.new number ≡ reader_names self.old number }
    {
        let _ = request;
        match (self.shown, outcome) {
            (State::Waiting, IoResult::Chunk(cell)) => {
                self.given = Some(cell.value);
                self.shown = State::NeedsCompute;
            }
            _ => {}
        }
    }
}

impl Morsel for Reader {
    ghost use Rattle.worked_runs.specs.Reader.{ReaderComputes, has_no_columns, is_fresh, is_want, reader_asked, reader_owed, reader_permits, reader_plan, reader_state, reader_work};
    ghost use Rattle.worked_runs.specs.ReaderRules.{reader_follows_plan, reader_is_orderly, reader_owes};

    type Error = IoError;

    ghost state_is = { reader_state };

    ghost computes = { ReaderComputes };

    ghost tells = { Unit {0} };

    ghost owed = { reader_owed (λ cell. cell.value) };

    ghost orderly = { λ _. Unit {0} };

    ghost asked = { reader_asked };

    ghost work = { reader_work };

    ghost is_memory = { is_want };

    ghost permits = { reader_permits (λ cell. cell.value) };

    ghost plans = { Unit {0} };

    ghost plan = { reader_plan };

    ghost fresh = { is_fresh };

    ghost gives_such = { has_no_columns };

    fn state(&self) -> State {
        self.shown
    }

    fn compute(&mut self) -> Result<MorselOutput, IoError> {
        match self.given {
            None => {
                let mut batch = IoBatch::new(self.alloc);
                batch.push(fetch_of(self.split))?;
                self.shown = State::Waiting;
                Ok(MorselOutput::NeedsIO(batch))
            }
            Some(0) => Err(IoError::Fault),
            Some(number) => {
                self.shown = State::Done;
                Ok(MorselOutput::Batch(rows_alone(self.alloc, number)))
            }
        }
    }

    ghost owes = { λ _. reader_owes (λ cell. cell.value) };

    ghost is_orderly = { reader_is_orderly (λ cell. cell.value) };

    ghost follows_plan = { λ _. reader_follows_plan (λ cell. cell.value) };
}
