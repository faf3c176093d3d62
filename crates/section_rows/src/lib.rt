//! The rows of a buffer of directory sections, in one order with undo.
#![tactic(auto)]

mod row;
mod undo;
mod undo_rows;

pub use row::BufferRow;
pub use undo_rows::UndoRows;
