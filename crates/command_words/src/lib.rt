//! What the words of a command line ask for.
#![tactic(auto)]

mod command;
mod commit;
mod defining;
mod drill;
mod list;
mod matching;
mod paths;
mod reading;
mod recover;

pub use command::{Command, Paths, WordsFault};
pub use reading::read_words;
