//! What programs of cases share: the fields and the entries of their tables, how trees are printed, which calls fail, and the loop
//! over the lines.
#![tactic(auto)]

mod behind;
mod calls;
mod entries;
mod entry;
mod faults;
mod fields;
mod listed;
mod printing;
mod schedule;
mod table;
mod tree_rows;

pub use behind::{STOPPED, settle, tree_behind};
pub use calls::{call_text, make};
pub use entries::entry_of;
pub use entry::push_row;
pub use faults::{RowFault, TableFault};
pub use fields::{bytes_of, mode_of, number_of, path_of, text_of, time_of};
pub use listed::push_tree;
pub use printing::{head_text, push_field, push_field_byte};
pub use schedule::{Schedule, ScheduleRow, schedule_row_of};
pub use table::{Table, run_table};
pub use tree_rows::TreeRows;
