//! The buffer of a listing: its lines, and what an edited copy of it asks for.
#![tactic(auto)]

mod due;
mod editing;
mod faults;
mod headers;
mod laws;
mod line;
mod reading;
mod splitting;
mod typed;

pub use editing::{Edited, edits};
pub use faults::{BufferCause, BufferFault, EditsFault, LineCause};
pub use laws::{entries_are_lines, untouched_lines_ask_nothing};
pub use line::BufferLine;
pub use reading::read_buffer;
