//! The names in the staging directory, and whether what stands there may be of a commit.
#![tactic(auto)]

mod entries;
mod entry_name;
mod laws;
mod numbers;
mod staged_name;
mod standing;

pub use entries::entries_of;
pub use entry_name::{EntryName, Role};
pub use laws::{names_are_read, what_is_in_order_is_not_foreign};
pub use staged_name::{Journal, Marker, Side, StagedName, read_name};
pub use standing::{Found, Standing, beyond, sort_out};
