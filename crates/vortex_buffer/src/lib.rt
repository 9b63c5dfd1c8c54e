//! Lists of values, bits and masks that stay as they are: what columns, selections and tables are made of; and the operator
//! that values are compared with.
//! Contracts see a buffer as the list of its values or bits, and a mask through `mask_bits`, the list of its bits.
#![tactic(auto)]

mod bit_buffer;
mod buffer;
mod compare_operator;
mod items;
mod mask;
mod words;

pub use bit_buffer::BitBuffer;
pub use buffer::Buffer;
pub use compare_operator::CompareOperator;
pub use items::Items;
pub use mask::Mask;
pub use std::alloc::AllocError;
