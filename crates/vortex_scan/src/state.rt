// What planners and morsels show of themselves, and what they answer.
use vortex_array::RecordBatch;
use vortex_io::IoBatch;
use vortex_scan_types::WorkScope;

/// What an item is about to do.
#[derive(Clone, Copy, Debug, PartialEq, Eq)]
pub enum State {
    /// It has nothing left to do.
    Done,
    /// It is to compute.
    NeedsCompute,
    /// It waits for what it fetches.
    Waiting,
}

/// What one computation of a planner answered.
#[derive(Drop)]
pub enum PlannerOutput<P, M> {
    /// Nothing is left to do.
    Done,
    /// It went on.
    Continue,
    /// It publishes these requests.
    NeedsIO(IoBatch),
    /// A planner of a part of its work.
    Planner(WorkScope, P),
    /// A morsel of its work.
    Morsel(WorkScope, M),
}

/// What one computation of a morsel answered.
#[derive(Drop)]
pub enum MorselOutput {
    /// Nothing is left to do.
    Done,
    /// It went on.
    Continue,
    /// It publishes these requests.
    NeedsIO(IoBatch),
    /// Rows.
    Batch(RecordBatch),
}

/// What one computation of an item answered, whether the item is a planner or a morsel.
#[derive(Drop)]
pub enum Output<W> {
    /// Nothing is left to do.
    Done,
    /// It went on.
    Continue,
    /// It publishes these requests.
    NeedsIO(IoBatch),
    /// A part of its work.
    Child(WorkScope, W),
    /// Rows.
    Batch(RecordBatch),
}
