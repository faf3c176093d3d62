//! The words of a script of Dired commands: its lines, and the command that stands at a line with its arguments.
#![tactic(auto)]

mod arguments;
mod command;
mod fault;
mod reading;
mod rows;
mod script;
mod splitting;
mod word;

pub use command::{Asked, Command, Commit, Remark, Test};
pub use fault::{CommandFault, ScriptCause, ScriptFault};
pub use reading::read_command;
pub use script::{MAX_LINES, Script, read_script};
