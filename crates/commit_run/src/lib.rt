//! The commit of checked changes.
#![tactic(auto)]

mod back;
mod committing;
mod end;
mod held;
mod places;
mod prepared;
mod reading;

pub use committing::commit;
pub use end::CommitEnd;
