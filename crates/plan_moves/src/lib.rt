//! The moves of a plan as a relation: which changes wait, which are ready, what the tree is between two moves, and how many there are.
#![tactic(auto)]

mod laws;

pub use laws::{knots_at_most, planned, plans_have_the_number_of_steps};
