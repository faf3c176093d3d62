//! Laws of buffers: which texts they are, and that an edited one asks for the differences of what its lines show.
#![tactic(auto)]

mod laws;

pub use laws::{buffers_are_their_sections, edits_are_differences, sections_and_texts_are_one};
