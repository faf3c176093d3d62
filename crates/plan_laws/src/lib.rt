//! Laws of plans: the tree between two steps, and where they lead.
#![tactic(auto)]

mod laws;

pub use laws::{all_wait_at_first, holds_lead_on, moves_keep_waiting_well, moves_lead_on};
