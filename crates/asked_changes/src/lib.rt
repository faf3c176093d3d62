//! The tests of what a check requires of changes.
#![tactic(auto)]

mod asked;
mod files;

pub use asked::can_be_asked;
pub use files::links_have_files;
