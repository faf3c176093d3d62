//! Recovery: what an interrupted commit left is brought to exactly the old or the edited tree.
#![tactic(auto)]

mod carrying;
mod end;
mod items;
mod recovering;
mod task;

pub use end::RecoverEnd;
pub use recovering::recover;
