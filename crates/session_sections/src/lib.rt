//! The sections of a buffer with an undo list of what they were before.
#![tactic(auto)]

mod kept;
mod steps;
#[cfg(test)]
mod tests;
mod undo_buffer;

pub use undo_buffer::UndoBuffer;
