//! Tests that are asked of single values: comparisons with constants, bounds, and patterns of `like`.
//! Each answers its truth for whatever value it is asked of, takes no memory to answer, and counts how often it was
//! asked.
#![tactic(auto)]

mod between_to;
mod compare_to;
mod like;
mod like_form;
mod like_to;
mod predicate;

pub use between_to::BetweenTo;
pub use compare_to::CompareTo;
pub use like::{LikePattern, text_matches};
pub use like_form::LentPattern;
pub use like_to::LikeTo;
pub use predicate::Predicate;
