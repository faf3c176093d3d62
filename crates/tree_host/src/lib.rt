//! The tree, the inputs, the output and the shell of the host, and the patterns of `regex`. What they tell is nothing, so their
//! content is trusted and not proved.
#![tactic(auto)]

mod changing;
mod doing;
mod host_patterns;
mod host_shelf;
mod host_shell;
mod host_sink;
mod host_tree;
mod mask;
mod reminding;
mod syncing;
mod touched;
mod work;

pub use host_patterns::RegexPatterns;
pub use host_shelf::FileShelf;
pub use host_shell::HostShell;
pub use host_sink::OutSink;
pub use host_tree::HostTree;
