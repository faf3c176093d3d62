//! The renames of Dired's `% R`: a regexp, and the text that its first match is replaced by (GNU Emacs Manual, "File Name
//! Transformations").
#![tactic(auto)]

mod fault;
mod reading;
mod replacing;
mod template;

pub use fault::ToFault;
pub use reading::read_to;
pub use replacing::{Renamer, renamed};
pub use template::Template;
