//! Where the groups of a list of steps end.
#![tactic(auto)]

mod cutting;
mod laws;
mod named_paths;

pub use cutting::cuts;
pub use laws::cuts_are_places;
