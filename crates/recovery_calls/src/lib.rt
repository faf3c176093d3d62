//! The calls of a recovery, made as its courses say, and what they need of memory.
#![tactic(auto)]

mod closing;
mod ending;
mod entries;
mod parts;
mod recovering;
mod turning;
mod way;
mod work;

pub use closing::{Item, clear, close};
pub use recovering::{back_from, forward_from, turned_back_from};
pub use turning::{Turn, turn_of};
pub use way::{Way, back_way, forward_way};
pub use work::{Entry, Work, work_of};
