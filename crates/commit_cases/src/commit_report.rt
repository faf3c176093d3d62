// What is printed of a commit.
use case_tables::call_text;
use commit_run::CommitEnd;
use dired_text::Memory;
use tree_core::CallName;

/// Prints how a commit ended, with the calls that failed.
pub fn push_end(text: &mut String, end: CommitEnd) -> Result<(), Memory> {
    match end {
        CommitEnd::Done => text.push_str("ended done")?,
        CommitEnd::Memory => text.push_str("ended memory")?,
        CommitEnd::TreeFault { first } => push_call(text, "ended tree-fault", first)?,
        CommitEnd::RolledBack { first } => push_call(text, "ended rolled-back", first)?,
        CommitEnd::Unfinished { first, second } => {
            push_call(text, "ended unfinished", first)?;
            push_call(text, "", second)?;
        }
        CommitEnd::Unclean { first } => push_call(text, "ended unclean", first)?,
    }
    text.push_str("\n")?;
    Ok(())
}

// A word, and the name of a call behind it.
fn push_call(text: &mut String, word: &str, call: CallName) -> Result<(), Memory> {
    text.push_str(word)?;
    text.push_str(" ")?;
    text.push_str(call_text(call))?;
    Ok(())
}
