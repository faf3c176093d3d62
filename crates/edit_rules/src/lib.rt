//! The decision on edits by what was found: which rule refuses them first, and how much they change.
#![tactic(auto)]

mod bytes;
mod claims;
mod counting;
mod lists;
mod modes;
mod places;
mod refusal;
mod rules;
mod standing;
mod table;
mod victims;

pub use counting::counts;
pub use lists::{missing_by_path, victims_by_line};
pub use modes::modes_by_depth;
pub use places::place;
pub use refusal::first_refusal;
pub use table::Table;
