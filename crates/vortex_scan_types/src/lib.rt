//! What a scan is asked for, and what it answers: requests, and batches with where they come from.
#![tactic(auto)]

mod batch;
mod data_source;
mod laws;
mod listed;
mod listed_masks;
mod listed_words;
mod place;
mod request;
mod row_mask;
mod selection;

pub use batch::{Batch, WorkScope};
pub use data_source::{DataSource, DataSourceScan, Partition, Precision};
pub use laws::{row_masks_complement, row_masks_count, row_masks_join, selections_partition};
pub use place::{Place, RootId};
pub use request::{Names, Projection, ScanRequest};
pub use row_mask::RowMask;
pub use selection::{NotIncreasing, Selection, StrictSortedBuffer};
