//! Predicates on files: the words that write them, their grammar, and what they say of a file (POSIX, "find").
#![tactic(auto)]

mod arguments;
mod building;
mod conditions;
mod fault;
mod laws;
mod predicate;
mod reading;
mod word;
mod words;

pub use fault::FindFault;
pub use laws::a_text_is_one_predicate;
pub use predicate::Predicate;
pub use reading::read_find;
