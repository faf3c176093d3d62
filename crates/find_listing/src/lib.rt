//! The files of a tree that meet a predicate (POSIX, "find").
#![tactic(auto)]

mod ends;
mod finding;
mod laws;
mod looks;
mod walk;

pub use ends::FindEnd;
pub use find_words::{FindFault, Predicate, read_find};
pub use finding::find;
pub use laws::paths_are_in_preorder;
