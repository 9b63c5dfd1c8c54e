//! Requests for chunks, and the sources that answer them. What a source owes is the contract of the trait `IoSource`;
//! `MemorySource` keeps it over chunks in memory, and `FailingSource` and `LyingSource` over any source, at whose listed calls they
//! fail or lie.
#![tactic(auto)]

mod batch;
mod consumer;
mod failing;
mod held;
mod ids;
mod laws;
mod lies;
mod lying;
mod memory;
mod order;
mod payload;
mod request;
mod source;

pub use batch::IoBatch;
pub use consumer::IoConsumer;
pub use failing::FailingSource;
pub use ids::{IoOwnerId, IoRequestId};
pub use laws::{
    holds_of_taken, honest_answers, honest_in_parts, one_fewer, rose_in_whole, targets_added,
    targets_kept, targets_of_others, targets_released, targets_stay, targets_taken,
};
pub use lying::{Lie, LyingSource};
pub use memory::MemorySource;
pub use order::{Arrive, Order};
pub use payload::Payload;
pub use request::{
    Completion, Fetch, IoError, IoIntent, IoRequest, IoResult, IoTarget, JournalEntry,
};
pub use source::IoSource;
