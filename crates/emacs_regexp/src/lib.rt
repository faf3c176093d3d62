//! Regular expressions in the syntax of Emacs (GNU Emacs Manual, "Syntax of Regular Expressions"), as the trees that they
//! write and as patterns of `regex`.
#![tactic(auto)]

mod ast;
mod backwards;
mod fault;
mod laws;
mod lexing;
mod matching;
mod places;
mod reading;
mod sets;
mod spelling;
mod token;

pub use ast::{Ast, groups};
pub use fault::RegexpFault;
pub use laws::tokens_write_the_tree;
pub use matching::{Finder, found};
pub use reading::read;
pub use spelling::spell;
