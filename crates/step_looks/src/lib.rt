//! Looks at the steps of a commit: whether each is still to be done or was done, and doing or undoing what the looks tell.
#![tactic(auto)]

mod laws;
mod looking;
mod parent_paths;
mod redoing;
mod undoing;

pub use laws::{looks_tell_what_is_left, looks_tell_what_was_done, tests_are_right};
pub use looking::{Seen, look, look_back};
pub use parent_paths::{Parents, parents_of};
pub use redoing::redo;
pub use undoing::{any_done, undo_done, undo_strictly};
