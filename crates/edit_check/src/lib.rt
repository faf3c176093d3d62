//! Whether changes of a tree are well formed, and where they take each path.
#![tactic(auto)]

mod checked;
mod laws;
mod verdict;

pub use checked::Checked;
pub use edit_words::{CheckFault, Counts};
pub use laws::{changes_can_be_made_where_it_stands, what_is_checked};
pub use verdict::check;
