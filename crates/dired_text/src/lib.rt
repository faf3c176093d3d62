//! Names, paths and texts, and the traits of what a run reads, writes, builds patterns with and hands to a shell.
#![tactic(auto)]

mod escaping;
mod mem_patterns;
mod mem_shelf;
mod mem_shell;
mod mem_sink;
mod modes;
mod name;
mod path;
mod patterns;
mod resolving;
mod shelf;
mod shell;
mod sink;
mod splitting;
mod text;

pub use escaping::{EscapeError, escape, escapes_come_back, unescape};
pub use mem_patterns::{MemPatterns, read_pattern};
pub use mem_shelf::MemShelf;
pub use mem_shell::MemShell;
pub use mem_sink::MemSink;
pub use modes::{mode_text, read_mode};
pub use name::{Name, is_name_text};
pub use path::{MAX_PATH_BYTES, Path, rest_below};
pub use patterns::{Patterns, PatternsError};
pub use resolving::{NameError, resolve};
pub use shelf::{Shelf, ShelfEnd};
pub use shell::Shell;
pub use sink::Sink;
pub use text::{Bytes, Failed, Memory, Text};
