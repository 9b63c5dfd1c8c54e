//! Types and values as text: header cells and fields, read and written. What is written is read as the same again.
#![tactic(auto)]

mod columns;
mod decimals;
mod digits;
mod hex;
mod laws;
mod powers;
mod texts;
mod types;
mod values;
mod whole;
mod written;

pub use columns::{column_in, header_cell, push_header};
pub use decimals::decimal_in;
pub use hex::push_bytes_in;
pub use laws::{fields_are_read, headers_are_read, types_are_read};
pub use texts::{text_in, truth_in};
pub use types::{push_type, type_in};
pub use values::value_in;
pub use whole::number_in;
pub use written::{field_text, push_field};
