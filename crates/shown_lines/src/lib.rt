//! The shown lines of a buffer: those that print, the chosen ones among them, and those that pass a test.
#![tactic(auto)]

mod choosing;
mod entry;
mod finding;
mod leaving;
mod omitting;
mod sections;
mod showing;
mod testing;

pub use choosing::{chosen, count_marked};
pub use entry::Entry;
pub use finding::is_shown;
pub use leaving::omitted_paths;
pub use showing::shown_lines;
pub use testing::{KeptVersions, passing};
