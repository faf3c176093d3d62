//! The changing calls of commits, of their way back and of recovery, made in order, and the paths that they need.
#![tactic(auto)]

mod calls;
mod clearing;
mod group;
mod paths;
mod staging;
mod unstaging;

pub use calls::{
    do_step, make_dir, make_hard, make_link, remove, remove_dir, rename, rename_and_sync, set_mode,
    sync, sync_and_rename, undo_step, write_file,
};
pub use clearing::{clean, clear, end_back};
pub use group::{Stopped, do_group, do_groups, undo_group};
pub use paths::{StagingPaths, at_markers, back_markers, fresh_paths, held_paths, staging_paths};
pub use staging::{fill, publish, stage};
pub use unstaging::unstage;
