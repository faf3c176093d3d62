//! The steps of a commit, sorted by layer: steps of one layer name no related paths, so that they are cut into few groups.
#![tactic(auto)]

mod floors;
mod laws;
mod layering;
mod sorting;

pub use laws::{layers_are_independent, layers_keep_order, orders_lead};
pub use sorting::sort_by_layer;
