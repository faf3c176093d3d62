//! What an interrupted commit left, as a recovery finds it: the names in the staging directory, tested, and the steps of the journal.
#![tactic(auto)]

mod end;
mod finding;
mod journal;
mod laws;
mod leftovers;
mod paths;

pub use end::StartEnd;
pub use laws::interrupted_trees_are_in_order;
pub use leftovers::{Leftovers, find_leftovers};
