//! The steps that carry out checked changes: what is put aside, the directories that are made, the moves and the modes.
#![tactic(auto)]

mod board;
mod changes;
mod fresh;
mod holds;
mod keepers;
mod moves;
mod names;
mod planned;
mod planning;

pub use planned::Plan;
pub use planning::{plan, read_names};
