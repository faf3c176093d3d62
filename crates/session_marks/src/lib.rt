//! The marks of Dired with an undo list (GNU Emacs Manual, "Dired Marks vs. Flags" and "Undo in Dired").
#![tactic(auto)]

mod changes;
mod kept;
mod laws;
#[cfg(test)]
mod tests;
mod undo_marks;

pub use laws::{put_at_each_path, undo_takes_a_change_back};
pub use undo_marks::UndoMarks;
