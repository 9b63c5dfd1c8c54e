//! Scans of tables: a run over the sources of a request's partitions, and the chosen rows as batches.
#![tactic(auto)]

mod check;
mod cut;
mod errors;
mod info;
mod partitions;
mod put_back;
mod refusals;
mod roots;
mod rounds;
mod scan;
mod table;
mod table_scan;

pub use errors::ScanError;
pub use info::PartitionInfo;
pub use table::{Table, TableRefused};
pub use table_scan::scan_table;
