//! The lines of a directory are one list: laws that turn the listings of `subdir_list` into a function.
#![tactic(auto)]

mod one_list;

pub use one_list::{listing_is_one, listings_agree, order_is_one};
