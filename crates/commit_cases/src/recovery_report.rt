// What is printed of a recovery.
use crate::report::push_number;
use case_tables::{call_text, push_field};
use commit_recover::RecoverEnd;
use dired_text::Memory;

/// Prints how a recovery ended.
pub fn push_recovery_end(text: &mut String, end: &RecoverEnd) -> Result<(), Memory> {
    match end {
        RecoverEnd::Nothing => text.push_str("ended nothing")?,
        RecoverEnd::Edited => text.push_str("ended edited")?,
        RecoverEnd::Old => text.push_str("ended old")?,
        RecoverEnd::Cleared => text.push_str("ended cleared")?,
        RecoverEnd::Memory => text.push_str("ended memory")?,
        RecoverEnd::TreeFault { first } => {
            text.push_str("ended tree-fault ")?;
            text.push_str(call_text(*first))?;
        }
        RecoverEnd::BadJournal { offset } => push_number(text, "ended bad-journal", *offset)?,
        RecoverEnd::Foreign { name } => {
            text.push_str("ended foreign ")?;
            push_field(text, name.as_str().as_bytes())?;
        }
        RecoverEnd::Strange { step } => push_number(text, "ended strange", *step)?,
    }
    text.push_str("\n")?;
    Ok(())
}
