//! Patterns of names, and the names that they match (POSIX, "Pattern Matching Notation").
#![tactic(auto)]

mod matching;
mod patterns;

pub use matching::matches;
pub use patterns::{Glyph, Glyphs, Pattern, Piece};
