//! Plain programs that compute the definitions of a scan, each proved to: what a filter says of a row, which rows a
//! request chooses of a table, and whether batches are an answer. They go value by value over plain vectors, and tests
//! of scans take them as their judge.
#![tactic(auto)]

mod asking;
mod batch;
mod chosen;
mod fit;
mod judge;
mod members;
mod order;
mod read;
mod rows;
mod same;
mod truth;
mod valid;

pub use asking::{are_small, ask, decode};
pub use batch::{PlainBatch, PlainColumn, PlainContent, PlainSplit, Question};
pub use chosen::{chosen_rows, is_chosen};
pub use fit::are_fit;
pub use judge::{answers, columns_of, rows_in, stands_for};
pub use members::{holds, is_partition_chosen, is_selected};
pub use order::compares;
pub use read::{read_batch, read_column, read_content};
pub use rows::{PlacedRow, PlainRow, PlainRows, PlainTable};
pub use same::{same_columns, same_dtype, same_places, same_row, same_scope, same_value};
pub use truth::{and, cell, keeps, or, truth_of};
pub use valid::{first_unknown, well_typed};
