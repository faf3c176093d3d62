//! A buffer of directory sections, over rows in one order with undo.
#![tactic(auto)]

mod buffer;
mod ends;
mod finding;
mod gathering;
mod hiding;
mod kept;
mod looking;
mod printing;
mod putting;
mod relisting;
mod section;
mod taking;
#[cfg(test)]
mod tests;

pub use buffer::{Buffer, insertions_come_back, kills_come_back};
pub use ends::{BufferEnd, PrintEnd};
pub use section::{Lines, Section};
