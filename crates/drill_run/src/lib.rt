//! The drill: a tree with every kind of edit in it is edited in one commit, and what was done is counted.
#![tactic(auto)]

mod counting;
mod counts;
mod drilling;
mod ends;

pub use counts::DrillCounts;
pub use drilling::drill_commit;
pub use ends::DrillEnd;
