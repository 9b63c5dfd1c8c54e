//! Lists of bytes, as columns of texts and of binary values keep them: one after another in one buffer. Contracts see the list of
//! them.
#![tactic(auto)]

mod byte_lists;
mod fronts;

pub use byte_lists::ByteLists;
pub use fronts::front_of;
