//! What tables are and what a scan of one answers: descriptions and why they are refused, and the definitions of a table's rows, of
//! the rows that a request chooses and of an answer, with what these imply.
#![tactic(auto)]

mod check;
mod describe;
mod errors;
mod laws;

pub use check::{count_steps, refusal};
pub use describe::{ChunkDesc, PartitionDesc, SplitDesc};
pub use errors::TableError;
pub use laws::{
    answer_is_its_rows, chosen_ascend, chosen_exactly, chosen_rows_are_full,
    each_question_has_an_answer, no_row_missing, ordered_answer_is_first_rows,
    ordered_answers_agree, splits_are_apart, without_limit,
};
