//! The least number of renames: the knots of flat changes are their cycles, and no list of renames does with fewer what edits in one
//! directory do.
#![tactic(auto)]

mod laws;

pub use laws::{knots_are_cycles, no_list_of_renames_is_shorter};
