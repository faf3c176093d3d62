//! The marks of Dired, kept by path (GNU Emacs Manual, "Dired Marks vs. Flags").
#![tactic(auto)]

mod backups;
mod laws;
mod mark_map;
mod moving;
mod numbers;
mod table;
mod version;

pub use backups::excess_backups;
pub use laws::{
    backup_ends_with_its_number, backups_are_the_shown_ones, changed_at_each_path,
    moved_at_each_path, stem_tells_directory_and_base, toggled_at_each_path, undo_takes_save_back,
};
pub use table::{MarkFault, Marks, is_mark};
