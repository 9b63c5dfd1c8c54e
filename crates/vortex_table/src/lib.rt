//! Tables and their scans: the rows of a table that a request asks for, in batches.
#![tactic(auto)]

mod built;
mod chunk;
mod errors;
mod numbers;
mod partition;
mod table;
mod table_scan;

pub use chunk::Chunk;
pub use errors::ScanError;
pub use numbers::{lent_numbers, read_numbers};
pub use table::{Table, TableRefused};
pub use table_scan::scan_table;
pub use vortex_table_types::{
    ChunkDesc, PartitionDesc, SplitDesc, TableError, answer_is_its_rows, chosen_ascend,
    chosen_exactly, chosen_rows_are_full, each_question_has_an_answer, no_row_missing,
    ordered_answer_is_first_rows, ordered_answers_agree, splits_are_apart, without_limit,
};
