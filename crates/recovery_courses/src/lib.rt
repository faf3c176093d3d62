//! What a recovery does on whatever stands, as lists of calls, and laws that it leads an interrupted tree to the old or the edited one.
#![tactic(auto)]

mod laws;

pub use laws::{
    clearings_lead_home, closings_lead_home, followers_come_home, halts_lead_back,
    halts_lead_forward, turned_lead_back,
};
