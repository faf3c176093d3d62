//! The journal of a commit: its steps as bytes, in two versions.
#![tactic(auto)]

mod decoding;
mod encoding;
mod fault;
mod laws;
mod paths;
mod reading;
mod sharing;
mod steps;
mod version;

pub use decoding::decode;
pub use encoding::{can_encode, encode};
pub use fault::JournalFault;
pub use laws::{
    a_fault_has_one_place, a_text_has_one_list_of_steps, steps_have_one_text,
    the_greatest_number_is_shared,
};
pub use version::Version;
