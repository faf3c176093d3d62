// The top call.
ghost use Rattle.std.specs.Prelude.{◌≡◌, ◌⊎◌, ℕ, List, Some, map};
ghost use Rattle.std.specs.String.{string_bytes};
ghost use Rattle.dired_text.specs.Counts.{Stayed};
ghost use Rattle.tree_core.specs.History.{current_tree, IsDurable};
ghost use Rattle.tree_core.specs.Faults.{TreeHeld};
ghost use Rattle.dired_run.specs.declared.requests.Request.{Request as Asked};
ghost use Rattle.run_status.specs.declared.status.Status.TheVariants.{Done, Memory};
ghost use Rattle.dired_run.specs.Kept.{IsDoneOrHeld, KeepsUnconfirmed, requested_by};
ghost use Rattle.dired_run.specs.Requests.{request_of};
ghost use Rattle.dired_run.specs.Reports.{Said, decided_of, output_of};
ghost use Rattle.dired_run.specs.Runs.{Decides, IsDecided, MayLeave, of_request, outside, verdict};
ghost use Rattle.dired_run.specs.WellFormed.{IsWellFormed};

use crate::Status;
use crate::commit::carry_out;
use crate::drilling::drill;
use crate::listing::list;
use crate::output::Output;
use crate::recovery::recover_tree;
use crate::reports::report;
use crate::requests::asked_for;
use command_words::{Command, WordsFault, read_words};
use dired_text::{Patterns, Shelf, Shell, Sink, Text};
use std::alloc::Global;
use tree_core::{Confirmed, Items, Tree};

/// Carries out the words of a command line, and answers the status. Its text, or at `Done` what the command prints, is written last.
///
/// `list [-A] [-l] [-t] [-S] [-r] [DIR]...` prints the listing of the root and of each DIR. `commit [--all] BEFORE AFTER
/// [CONFIRMED]...` compares a listing as printed with the same listing as edited, checks all edits against the tree, and
/// commits them, all or none; it names the entries whose names were emptied. `recover [--back]` brings what an interrupted
/// commit left to the old or the edited tree, and tells which. `drill N` commits the edits of a tree of its own in memory, and tells
/// how many there were; it leaves `tree` alone. None of these uses the patterns, the shell or the time, `now`.
pub fn run<T: Tree, H: Shelf, P: Patterns, S: Shell, W: Sink>(
    alloc: Global,
    words: &[String],
    tree: &mut T,
    shelf: &mut H,
    patterns: &mut P,
    shell: &mut S,
    sink: &mut W,
    _now: i64,
) -> Status
    // Nothing is pending when the run begins.
    requires durable { T.Tells → IsDurable (T.history tree.old) }

    // A status is decided by the verdict, by the first failed call or by want of memory, and then its text is written. Of every
    // tree, a real one too: no changing call was made behind a refusal.
    ensures outcome { let old = current_tree (T.history tree.old) in
        let v = verdict (map string_bytes words.now) (H.files shelf.old) old in
        let before = outside (T.history tree.old) (T.fields tree.old) (T.faults tree.old)
        (T.changes tree.old) (T.before_failed tree.old)
        (H.faults shelf.old) (H.last_failed shelf.old) in
        let now = outside (T.history tree.new) (T.fields tree.new) (T.faults tree.new)
        (T.changes tree.new) (T.before_failed tree.new)
        (H.faults shelf.new) (H.last_failed shelf.new) in
        (decided : Status) × (text : List ℕ) × (IsDecided T.Tells H.Tells before now decided text
        × ((T.Tells → H.Tells → Decides v before now decided text)
        × Said W.Tells decided text
        (W.taken sink.old) (W.taken sink.new) (W.faults sink.old) (W.faults sink.new) result)) }

    // Stopped at any moment, whatever failed, the tree is the old one, or a commit's, which a recovery brings to the old or to the
    // edited one; and a recovery leaves it so for the same two trees.
    ensures any_moment { T.Tells → H.Tells →
        let old = current_tree (T.history tree.old) in
        let v = verdict (map string_bytes words.now) (H.files shelf.old) old in
        MayLeave v (T.history tree.old) (T.history tree.new) }

    // Behind a commit that was done no file was replaced that wasn't confirmed.
    ensures unconfirmed { T.Tells → H.Tells → IsDoneOrHeld result → (request : Asked) →
        requested_by (map string_bytes words.now) (H.files shelf.old) ≡ Some request →
        KeepsUnconfirmed request
        (current_tree (T.history tree.old)) (current_tree (T.history tree.new)) }

    // What is well formed is done, where no call failed and memory was there.
    ensures complete { T.Tells → H.Tells →
        IsWellFormed (map string_bytes words.now) (H.files shelf.old)
        (current_tree (T.history tree.old)) →
        TreeHeld (T.faults tree.old) (T.faults tree.new) →
        Stayed (H.faults shelf.old) (H.faults shelf.new) →
        Stayed (W.faults sink.old) (W.faults sink.new) →
        (result ≡ Done) ⊎ (result ≡ Memory) }
    ensures unused { (patterns.new ≡ patterns.old) × (shell.new ≡ shell.old) }
{
    let ended = decide(alloc, words, tree, shelf);
    report(alloc, ended, sink)
}

// Does what the words ask for, and answers the output or the refusal.
fn decide<T: Tree, H: Shelf>(
    alloc: Global,
    words: &[String],
    tree: &mut T,
    shelf: &mut H,
) -> Result<Output, Status>
    requires durable { T.Tells → IsDurable (T.history tree.old) }

    ensures decides { T.Tells → H.Tells →
        let old = current_tree (T.history tree.old) in
        let v = verdict (map string_bytes words.now) (H.files shelf.old) old in
        let before = outside (T.history tree.old) (T.fields tree.old) (T.faults tree.old)
        (T.changes tree.old) (T.before_failed tree.old)
        (H.faults shelf.old) (H.last_failed shelf.old) in
        let now = outside (T.history tree.new) (T.fields tree.new) (T.faults tree.new)
        (T.changes tree.new) (T.before_failed tree.new)
        (H.faults shelf.new) (H.last_failed shelf.new) in
        Decides v before now (decided_of result) (output_of result) }
    ensures decided { let before = outside
        (T.history tree.old) (T.fields tree.old) (T.faults tree.old)
        (T.changes tree.old) (T.before_failed tree.old)
        (H.faults shelf.old) (H.last_failed shelf.old) in
        let now = outside (T.history tree.new) (T.fields tree.new) (T.faults tree.new)
        (T.changes tree.new) (T.before_failed tree.new)
        (H.faults shelf.new) (H.last_failed shelf.new) in
        IsDecided T.Tells H.Tells before now (decided_of result) (output_of result) }
{
    match read_words(alloc, words) {
        Ok(Command::List { switches, dirs }) => list(alloc, tree, &switches, dirs.as_slice()),
        Ok(
            Command::Commit {
                all,
                before,
                after,
                confirmed,
            },
        ) => {
            let confirmed = Confirmed {
                all,
                paths: Items::from_vec(confirmed.into_vec()),
            };
            commit_buffers(alloc, tree, shelf, &before, &after, confirmed)
        }
        Ok(Command::Recover { back }) => recover_tree(alloc, tree, back),
        Ok(Command::Drill { groups }) => drill(alloc, groups),
        Err(WordsFault::Usage) => Err(Status::Usage),
        Err(WordsFault::Memory) => Err(Status::Memory),
    }
}

// Commits what the buffers of these names ask for.
fn commit_buffers<T: Tree, H: Shelf>(
    alloc: Global,
    tree: &mut T,
    shelf: &mut H,
    before: &Text,
    after: &Text,
    confirmed: Confirmed,
) -> Result<Output, Status>
    requires durable { T.Tells → IsDurable (T.history tree.old) }

    ensures decides { T.Tells → H.Tells →
        let old = current_tree (T.history tree.old) in
        let request = request_of (H.files shelf.old) before.now after.now confirmed in
        let start = outside (T.history tree.old) (T.fields tree.old) (T.faults tree.old)
        (T.changes tree.old) (T.before_failed tree.old)
        (H.faults shelf.old) (H.last_failed shelf.old) in
        let now = outside (T.history tree.new) (T.fields tree.new) (T.faults tree.new)
        (T.changes tree.new) (T.before_failed tree.new)
        (H.faults shelf.new) (H.last_failed shelf.new) in
        Decides (of_request request old) start now (decided_of result) (output_of result) }
    ensures decided { let start = outside
        (T.history tree.old) (T.fields tree.old) (T.faults tree.old)
        (T.changes tree.old) (T.before_failed tree.old)
        (H.faults shelf.old) (H.last_failed shelf.old) in
        let now = outside (T.history tree.new) (T.fields tree.new) (T.faults tree.new)
        (T.changes tree.new) (T.before_failed tree.new)
        (H.faults shelf.new) (H.last_failed shelf.new) in
        IsDecided T.Tells H.Tells start now (decided_of result) (output_of result) }
{
    match asked_for(alloc, before, after, confirmed, shelf) {
        Ok(request) => carry_out(alloc, tree, request),
        Err(status) => Err(status),
    }
}
