//! What a run answers: its statuses, with their numbers and texts.
#![tactic(auto)]

mod scripts;
mod status;

pub use status::{
    COMMITTED_BUT, Counted, LineCause, NEITHER, NOTHING_DECIDED, OUT_OF_MEMORY, PENDING,
    RUN_RECOVER, STEP, Status, TAKEN_BACK, THEN, UNREADABLE_AT, USAGE, call_text, path_text,
};
