//! Runs: many roots of work over their sources, taken forward one visit at a time.
#![tactic(auto)]

mod admit;
mod ask;
mod counting;
mod counts;
mod deliver;
mod driver;
mod errors;
mod fetches;
mod item;
mod laws;
mod least;
mod morsel;
mod next;
mod planner;
mod publish;
mod retire;
mod run;
mod sources;
mod state;
mod taking;
mod turn;
mod visit;
mod worker;

pub use driver::{Driver, DriverRun};
pub use errors::{AdmitError, Progress, Refused, RunError, Visited};
pub use fetches::Fetches;
pub use item::{Item, Slot};
pub use laws::{ended_roots_are_silent, told_roots_have_ended};
pub use morsel::Morsel;
pub use next::{Next, next_fn};
pub use planner::Planner;
pub use run::Run;
pub use state::{MorselOutput, Output, PlannerOutput, State};
pub use vortex_scan_types::{
    Batch, DataSource, DataSourceScan, Names, NotIncreasing, Partition, Place, Precision,
    Projection, RootId, RowMask, ScanRequest, Selection, StrictSortedBuffer, WorkScope,
    row_masks_complement, row_masks_count, row_masks_join, selections_partition,
};
pub use worker::{Work, Worker};
