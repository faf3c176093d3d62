//! The commands that Dired's `!` hands to the shell (GNU Emacs Manual, "Shell Commands in Dired").
#![tactic(auto)]

mod mark_laws;
mod quoting;
mod scanning;
mod substituting;
mod word_laws;

pub use mark_laws::{marks_are_replaced, marks_stand_alone};
pub use quoting::quote;
pub use substituting::{SubstFault, commands};
pub use word_laws::{
    names_in_a_row_are_their_words, quoted_name_is_one_word, quoted_name_leaves_other_words,
};
