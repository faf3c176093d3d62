//! What an interrupted commit leaves, as a table of six rows, and the lists of calls of a commit, of its way back and of recovery,
//! which leave nothing else at any moment.
#![tactic(auto)]

mod held;
mod laws;

pub use held::Held;
pub use laws::{
    closed_ones_are_cleared, commits_are_safe, failed_calls_leave_rows, failed_calls_tell_markers,
    failed_calls_tell_places, failed_stagings_tell_names, halts_go_back, halts_go_forward,
    interrupted_trees_recover, names_suffice, rows_exclude_one_another, turned_go_back,
    unclean_ends_read_new, unplanned_go_back, written_are_interrupted,
};
