//! Laws of plans: a journal takes the steps of every plan.
#![tactic(auto)]

mod laws;

pub use laws::{plans_can_be_spelled, plans_fit_a_journal};
