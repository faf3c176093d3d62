//! What a person sees of a tree: the sections of a buffer, the marks and whether lines are omitted, with one undo list
//! (GNU Emacs Manual, "Undo in Dired").
#![tactic(auto)]

mod laws;
mod part;
mod undo_view;

pub use laws::undo_takes_a_command_back;
pub use undo_view::UndoView;
