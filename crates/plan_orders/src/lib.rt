//! Laws of plans: the steps of a plan in another order.
#![tactic(auto)]

mod laws;

pub use laws::{orders_can_be_spelled, orders_fit, plans_set_once};
