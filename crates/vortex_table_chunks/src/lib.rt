//! Chunks: one column's part of a split, in the form in which a source keeps it, and what a filter says of the rows of a
//! split by its chunks. Each call answers by rows: one definition, `chunk_column`, reads a chunk as its column.
#![tactic(auto)]

mod answers;
mod chosen;
mod chunk;
mod compare;
mod filters;
mod forms;
mod leaves;
mod named;
mod operands;

pub use chosen::chosen_batch;
pub use chunk::Chunk;
pub use filters::filter_truth;
pub use leaves::leaf;
