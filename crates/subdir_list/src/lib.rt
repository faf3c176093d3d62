//! The sections of a listing, as a tree gives them.
#![tactic(auto)]

mod ends;
mod lines;
mod sections;

pub use ends::ListEnd;
pub use lines::list_dir;
pub use sections::list_dirs;
