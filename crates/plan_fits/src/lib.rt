//! That a plan of checked changes, with the entries that they ask for and what they put aside, is such as a commit needs.
#![tactic(auto)]

mod laws;

pub use laws::plans_fit;
