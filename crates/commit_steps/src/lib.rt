//! The steps of a commit, and which of them a journal can spell.
#![tactic(auto)]

mod entry_names;
mod lawful;
mod path_sizes;
mod step;
mod steps;

pub use lawful::is_lawful;
pub use step::Step;
pub use steps::Steps;
