//! What an edited buffer asks for can be asked: laws that tie the edits of `wdired_buffer` to the changes of `edit_check`.
#![tactic(auto)]

mod laws;

pub use laws::{edits_can_be_asked, emptied_names_are_of_lines};
