//! Planners and morsels of tables: a planner makes a morsel for each split of its partition that a request needs, and a morsel
//! fetches the needed chunks of its split and gives the split's chosen rows.
#![tactic(auto)]

mod errors;
mod live;
mod morsel;
mod needed;
mod phase;
mod planner;
mod wanted;

pub use errors::PlanError;
pub use morsel::ChunkMorsel;
pub use planner::TablePlanner;
