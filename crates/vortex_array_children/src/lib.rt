//! Children of encoded columns: arrays that stand for the types that metadata names.
#![tactic(auto)]

mod children;
mod widths;

pub use children::{one_child, relabelled, stands_for, two_children};
pub use widths::{width_number, width_numbered};
