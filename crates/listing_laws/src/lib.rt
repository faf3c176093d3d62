//! What is printed is read: laws that tie the listings of `subdir_list` to the buffers of `wdired_buffer`.
#![tactic(auto)]

mod one_line;
mod printed;
mod reading_laws;

pub use one_line::{lines_split, listings_are_lines, texts_on_one_line};
pub use printed::printed_listings_are_read;
pub use reading_laws::{
    entries_come_back, headers_come_back, names_resolve, paths_resolve, totals_come_back,
};
