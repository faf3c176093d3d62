//! The machine of Dired scripts: a session, and one command after another (GNU Emacs Manual, "Dired").
#![tactic(auto)]

mod marking;
mod printing;
mod script;
mod sections;
mod session;
mod step;
mod undoing;

pub use script::{read_script, run_script};
pub use session::Session;
