//! What the steps of a commit do to trees, in trees alone: how looks tell whether a step was done, the groups that a list of steps
//! is cut into, and what it is that steps lead from an old tree to an edited one.
#![tactic(auto)]

mod laws;

pub use laws::{
    groups_are_cut, looks_are_kept, looks_tell_which_were_done, places_are_led, steps_can_be_done,
    steps_can_be_exchanged, steps_can_be_undone,
};
