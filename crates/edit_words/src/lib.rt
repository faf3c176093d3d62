//! The words of edits: changes as rows, what looks find, where each path goes, which changes are refused by which rule, and the
//! tree that they make.
#![tactic(auto)]

mod above;
mod counts;
mod fault;
mod findings;
mod laws;
mod row;
mod seen;

pub use above::{ancestor, ancestors};
pub use counts::Counts;
pub use fault::CheckFault;
pub use findings::Findings;
pub use laws::{
    taken_where_nothing_is_refused, the_first_line_is_the_least,
    well_formed_where_no_fault_is_found,
};
pub use row::{Route, Row, rows_of};
pub use seen::Seen;
