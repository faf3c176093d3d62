//! A directory tree in memory, whose calls fail as it was told.
#![tactic(auto)]

mod attempt;
mod build;
mod changing;
mod choices;
mod conditions;
mod files;
mod lawful;
mod looking;
mod mem;
mod pending;
mod renaming;
mod replay;
mod schedule;
mod slots;
mod store;

pub use build::{BuildFault, Entry};
pub use mem::MemTree;
