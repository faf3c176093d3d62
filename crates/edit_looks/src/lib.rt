//! The looks of a check: what stands at the paths that edits speak of.
#![tactic(auto)]

mod look;
mod search;
mod see;

pub use look::SeeEnd;
pub use search::look_for_rows;
