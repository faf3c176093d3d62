//! Laws of plans: where the trees that the parts of a plan begin and end with stand, and that plans lead to the edited tree.
#![tactic(auto)]

mod laws;

pub use laws::{
    each_starts_well, first_steps_lead, modes_lead, moves_end_in_place, moves_run, plans_lead,
};
