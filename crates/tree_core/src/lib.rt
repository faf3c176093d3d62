//! Directory trees: what they are, what each call does to them, and what a crash may leave.
#![tactic(auto)]

mod changes;
mod edit;
mod faults;
mod laws;
mod lists;
mod meta;
mod node;
mod tree;

pub use changes::{Changes, Confirmed, Creation, Fresh, Removal};
pub use edit::{Edit, Shown};
pub use faults::Faults;
pub use laws::{
    changes_leave_trees, crashes_leave_some_of_the_calls, names_are_of_what_stands,
    syncs_make_durable,
};
pub use lists::Items;
pub use meta::{LookEnd, Meta, ReadEnd};
pub use node::{CallName, Change, Kind, Node};
pub use tree::Tree;
