//! Values by paths. Each call takes a time that grows with the bytes of its path, and not with the paths that share them.
#![tactic(auto)]

mod map;

pub use map::PathMap;
