//! The tree of a drill in memory.
#![tactic(auto)]

mod making;

pub use making::make_drill;
