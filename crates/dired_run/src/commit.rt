// The check of all edits, and their commit.
ghost use Rattle.std.specs.Prelude.{◌≡◌, ◌++◌, IfOk, IfErr, OnOk, ℕ, List, Option};
ghost use Rattle.std.specs.String.{string_bytes};
ghost use Rattle.tree_core.specs.declared.changes.Changes.TheVariants.{Edits};
ghost use Rattle.tree_core.specs.History.{current_tree, IsDurable};
ghost use Rattle.edit_words.specs.WellFormed.{AreAsked};
ghost use Rattle.dired_run.specs.Faults.{status_of_commit};
ghost use Rattle.dired_run.specs.Reports.{decided_of, output_of};
ghost use Rattle.dired_run.specs.Runs.{Decides, outside, last_text};
ghost use Rattle.run_status.specs.Statuses.{IsKeptBehind, IsTreeRefusal, calls_behind, sort_of};
ghost use Rattle.dired_run.specs.Verdicts.{on_tree, flagged_text, counts_text, summary_text};

use crate::output::Output;
use crate::{Request, Status};
use commit_run::{CommitEnd, commit};
use dired_text::{Bytes, Memory, Path};
use edit_check::{Counts, check};
use run_status::path_text;
use std::alloc::Global;
use tree_core::{Changes, Tree};

/// Checks all edits, and commits them or answers their first refusal; answers the lines that say what was done. These are made
/// before the tree is changed.
///
/// # Errors
/// The first fault of the check, want of memory, or the first failed call of the tree, with how the commit ended.
pub fn carry_out<T: Tree>(alloc: Global, tree: &mut T, request: Request) -> Result<Output, Status>
    requires can { AreAsked (Edits request.edits) }
    requires durable { T.Tells → IsDurable (T.history tree.old) }

    // Whatever was read before.
    ensures decides { T.Tells →
        (reads reads_now : ℕ) (last last_now : Option (List ℕ)) → reads_now ≡ reads →
        let before = outside (T.history tree.old) (T.fields tree.old) (T.faults tree.old)
        (T.changes tree.old) (T.before_failed tree.old) reads last in
        let now = outside (T.history tree.new) (T.fields tree.new) (T.faults tree.new)
        (T.changes tree.new) (T.before_failed tree.new) reads_now last_now in
        Decides (on_tree request (current_tree (T.history tree.old))) before now
        (decided_of result) (output_of result) }
    ensures calls { T.faults tree.new ≡
        calls_behind (sort_of (decided_of result)) (T.faults tree.old) }
    ensures kept { IsKeptBehind (sort_of (decided_of result))
        (T.changes tree.old) (T.changes tree.new) }
    ensures end { IfErr result IsTreeRefusal }
{
    let Request {
        edits,
        confirmed,
        flagged,
    } = request;
    let checked = check(alloc, tree, Changes::Edits(edits), &confirmed)?;
    let Ok(text) = summary(alloc, checked.counts(), flagged.as_slice()) else {
        return Err(Status::Memory);
    };
    ended(commit(alloc, tree, checked), text)
}

// What is answered where a commit ended so, and this was to be written.
fn ended(end: CommitEnd, text: Bytes) -> Result<Output, Status>
    ensures decided { decided_of result ≡ status_of_commit end }
    ensures text { output_of result ≡ last_text (status_of_commit end) text }
    ensures end { IfErr result IsTreeRefusal }
{
    match end {
        CommitEnd::Done => Ok(Output::Lines(text)),
        CommitEnd::Memory => Err(Status::Memory),
        CommitEnd::TreeFault { first } => Err(Status::TreeFault { first }),
        CommitEnd::RolledBack { first } => Err(Status::RolledBack { first }),
        CommitEnd::Unfinished { first, second } => Err(Status::Unfinished { first, second }),
        CommitEnd::Unclean { first } => Err(Status::Unclean { first }),
    }
}

// What is written where so much was changed.
fn summary(alloc: Global, counts: Counts, flagged: &[Path]) -> Result<Bytes, Memory>
    ensures { IfOk result (λ text. text ≡ summary_text counts flagged.now) }
{
    let mut text = String::new(alloc);
    for path in flagged {
        push_flagged(&mut text, path)?;
    }
    push_counts(&mut text, counts, flagged.len())?;
    Ok(Bytes::from_vec(text.into_bytes()))
}

// Pushes the line of the counts.
fn push_counts(text: &mut String, counts: Counts, flagged: usize) -> Result<(), Memory>
    ensures { OnOk result
        (string_bytes text.new ≡ string_bytes text.old ++ counts_text counts flagged) }
{
    let Counts {
        renamed,
        retargeted,
        modes,
        replaced,
        made,
        ..
    } = counts;
    let line = format!(in *text.allocator();
        "renamed {renamed}, retargeted {retargeted}, modes {modes}, replaced {replaced}, made {made}, flagged {flagged}\n"
    )?;
    text.push_str(line.as_str())?;
    Ok(())
}

// Pushes the line of an emptied name.
fn push_flagged(text: &mut String, path: &Path) -> Result<(), Memory>
    ensures { OnOk result (string_bytes text.new ≡ string_bytes text.old ++ flagged_text path.now) }
{
    let shown = path_text(*text.allocator(), path)?;
    text.push_str("flagged ")?;
    text.push_str(shown.as_str())?;
    text.push_str("\n")?;
    Ok(())
}
