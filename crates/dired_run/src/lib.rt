//! What the program `dired` does: the top call, over any tree, inputs and output.
#![tactic(auto)]

mod commit;
mod drilling;
mod inputs;
mod listing;
mod output;
mod program;
mod recovery;
mod reports;
mod requests;

pub use program::run;
pub use requests::Request;
pub use run_status::{Counted, LineCause, Status};
