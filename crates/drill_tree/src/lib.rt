//! The tree of a drill, which has every kind of edit in it, and its edits.
#![tactic(auto)]

mod edits;
mod entries;
mod group;
mod laws;
mod moves;

pub use edits::drill_edits;
pub use entries::{Held, drill_entries};
pub use group::Group;
pub use laws::drills_can_be_made;
pub use moves::Move;
