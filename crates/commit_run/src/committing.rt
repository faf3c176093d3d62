// A commit.
ghost use Rattle.std.specs.Prelude.{◌≡◌, ◌<◌, length, true};
ghost use Rattle.commit_plan.specs.Promises.{IsOldTree};
ghost use Rattle.commit_run.specs.Begun.{EndsFrom, EndsFromSeal, StandsAtSeal, StandsBehind, stepped, synced};
ghost use Rattle.commit_run.specs.Commits.{Commits};
ghost use Rattle.commit_run.specs.Ends.{end_behind};
ghost use Rattle.commit_run.specs.Faults.{IsKept, NamesFaults, NamesSecond, is_begun};
ghost use Rattle.commit_run.specs.Preparing.{IsPrepared};
ghost use Rattle.commit_run.specs.Sealing.{finish_calls};
ghost use Rattle.edit_check.specs.StandFor.{changes_in};
ghost use Rattle.tree_core.specs.Faults.{NamesFault};
ghost use Rattle.tree_core.specs.History.{IsDurable, current_tree};
ghost use Rattle.tree_core.specs.Runs.{CanAll, Ran};

use crate::CommitEnd;
use crate::back::{back_before_groups, back_from, stands};
use crate::prepared::{Prepared, prepare};
use commit_calls::{clean, do_groups, rename, stage, sync};
use edit_check::Checked;
use std::alloc::Global;
use tree_core::{CallName, Tree};

/// Carries out checked changes, so that a crash at any moment leaves a tree from which recovery leads to exactly the old or the edited
/// one. It begins with a tree that the check stands for, where nothing is pending. All memory is taken before the first changing call.
///
/// The steps of the plan are done in groups. A journal that lists them is written and made durable first; a marker tells how many
/// are done, and moves when those before it are durable. Behind the last step the journal gets its last name, which is the point from
/// which recovery leads to the edited tree only; then what was put aside is removed.
///
/// Where a call fails before that, all that was done is undone. The end says what stands then, and which calls failed.
pub fn commit<T: Tree>(alloc: Global, tree: &mut T, checked: Checked) -> CommitEnd
    requires stands { T.Tells → IsOldTree checked (current_tree (T.history tree.old)) }
    requires durable { T.Tells → IsDurable (T.history tree.old) }
    ensures commit { T.Tells → Commits (changes_in checked)
        (T.history tree.old) (T.history tree.new) (T.before_failed tree.new) result }
    ensures faults { NamesFaults (T.faults tree.old) (T.faults tree.new) result }
    ensures kept { IsKept (T.changes tree.old) (T.changes tree.new) result }
{
    let Ok(prepared) = prepare(alloc, &checked) else {
        return CommitEnd::Memory;
    };
    if let Err(first) = sync(tree) {
        return CommitEnd::TreeFault { first };
    }
    if prepared.steps.as_slice().is_empty() {
        return CommitEnd::Done;
    }
    carry_out(tree, &prepared)
}

// All that a commit does behind its first `sync`.
fn carry_out<T: Tree>(tree: &mut T, prepared: &Prepared) -> CommitEnd
    requires prepared { IsPrepared prepared.now }
    requires some { 0 < length prepared.now.steps }
    requires begun { T.Tells → StandsBehind prepared.now synced (T.history tree.old) }
    ensures ends { T.Tells → EndsFrom prepared.now synced
        (T.history tree.old) (T.history tree.new) (T.before_failed tree.new) result }
    ensures faults { NamesFaults (T.faults tree.old) (T.faults tree.new) result }
    ensures begun { is_begun result ≡ true }
{
    let staged = stage(
        tree,
        &prepared.fresh,
        prepared.journal.as_slice(),
        &prepared.paths,
        &prepared.fresh_paths,
        prepared.at_marker(0),
    );
    if let Err(first) = staged {
        return ended(first, back_before_groups(tree, prepared));
    }
    let steps = prepared.steps.as_slice();
    if let Err(stopped) = do_groups(tree, steps, &prepared.ends, &prepared.at_markers) {
        return ended(stopped.first, back_from(tree, prepared, stopped.group));
    }
    seal_and_clean(tree, prepared)
}

// Gives the journal its last name, and removes what was put aside.
fn seal_and_clean<T: Tree>(tree: &mut T, prepared: &Prepared) -> CommitEnd
    requires prepared { IsPrepared prepared.now }
    requires begun { T.Tells →
        StandsBehind prepared.now (stepped prepared.now) (T.history tree.old) }
    ensures ends { T.Tells → EndsFrom prepared.now (stepped prepared.now)
        (T.history tree.old) (T.history tree.new) (T.before_failed tree.new) result }
    ensures faults { NamesFaults (T.faults tree.old) (T.faults tree.new) result }
    ensures begun { is_begun result ≡ true }
{
    if let Err(first) = rename(tree, &prepared.paths.plan, &prepared.paths.sealed) {
        return unsealed(tree, prepared, first);
    }
    match finish(tree, prepared) {
        Ok(()) => CommitEnd::Done,
        Err(first) => CommitEnd::Unclean { first },
    }
}

// Makes the seal durable, and clears the staging directory.
fn finish<T: Tree>(tree: &mut T, prepared: &Prepared) -> Result<(), CallName>
    requires prepared { IsPrepared prepared.now }
    requires can { T.Tells →
        CanAll (finish_calls prepared.now.steps prepared.now.held.items) (T.history tree.old) }
    ensures ran { T.Tells → Ran (finish_calls prepared.now.steps prepared.now.held.items)
        (T.history tree.old) (T.history tree.new)
        (T.before_failed tree.old) (T.before_failed tree.new) result }
    ensures cause { NamesFault (T.faults tree.old) (T.faults tree.new) result }
{
    sync(tree)?;
    clean(
        tree,
        &prepared.held,
        &prepared.held_paths,
        prepared.at_marker(prepared.last_cut()),
        &prepared.paths,
        prepared.steps.as_slice().len(),
    )
}

// The rename that seals the journal failed: it was done, or the way back follows.
fn unsealed<T: Tree>(tree: &mut T, prepared: &Prepared, first: CallName) -> CommitEnd
    requires prepared { IsPrepared prepared.now }
    requires begun { T.Tells → StandsAtSeal prepared.now first
        (T.history tree.old) (T.before_failed tree.old) }
    ensures ends { T.Tells → EndsFromSeal prepared.now first
        (T.history tree.old) (T.before_failed tree.old)
        (T.history tree.new) (T.before_failed tree.new) result }
    ensures faults { NamesSecond first (T.faults tree.old) (T.faults tree.new) result }
    ensures begun { is_begun result ≡ true }
{
    match stands(tree, &prepared.paths.sealed) {
        Ok(true) => CommitEnd::Unclean { first },
        Ok(false) => ended(first, back_from(tree, prepared, prepared.last_cut())),
        Err(second) => CommitEnd::Unfinished { first, second },
    }
}

// The end behind a way back.
fn ended(first: CallName, back: Result<(), CallName>) -> CommitEnd
    ensures end { result ≡ end_behind first back }
    ensures begun { is_begun result ≡ true }
{
    match back {
        Ok(()) => CommitEnd::RolledBack { first },
        Err(second) => CommitEnd::Unfinished { first, second },
    }
}
