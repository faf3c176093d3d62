//! Rows that stand in lists, linked by index.
#![tactic(auto)]

mod laws;
mod links;
mod rows;

pub use laws::{
    a_list_is_of_values, a_row_stands_in_one_list, an_unlinked_row_keeps_its_neighbours,
};
pub use rows::{ListId, RowId, Rows};
