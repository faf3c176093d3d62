// A recovery.
ghost use Rattle.commit_recover.specs.Answers.{Answers};
ghost use Rattle.commit_recover.specs.Faults.{IsKept, NamesFaults};
ghost use Rattle.commit_recover.specs.Recovers.{Recovers};
ghost use Rattle.commit_steps.specs.Staging.{staging};
ghost use Rattle.recovery_start.specs.Start.{IsSortedOut, IsStanding};
ghost use Rattle.tree_core.specs.FileTree.{IsAbsent};
ghost use Rattle.tree_core.specs.History.{current_tree};

use crate::RecoverEnd;
use crate::carrying::sync_and_carry_out;
use crate::task::task_for;
use commit_calls::sync;
use dired_text::Memory;
use recovery_start::{Leftovers, find_leftovers};
use std::alloc::Global;
use tree_core::Tree;

/// Brings what an interrupted commit left to exactly the old or the edited tree. All memory is taken before the first changing call.
///
/// With `plan` and the marker `at-M` it goes on to the edited tree, or with `back` to the old one. With `back-M` and with `undone` it goes
/// to the old tree, and with `done` to the edited one. Without a journal the staging directory is removed, and the rest stays. Each step
/// is looked at first, so recovery may be stopped at any moment and called again.
///
/// What a commit can't have left is told, with nothing changed (`Foreign`, `BadJournal`), or where it is met (`Strange`).
pub fn recover<T: Tree>(alloc: Global, tree: &mut T, back: bool) -> RecoverEnd
    ensures recovers { T.Tells → Recovers back (T.history tree.old) (T.history tree.new) result }
    ensures answers { T.Tells → Answers back (T.history tree.old) (T.history tree.new)
        (T.before_failed tree.new) result }
    ensures faults { NamesFaults (T.faults tree.old) (T.faults tree.new) result }
    ensures kept { IsKept (T.changes tree.old) (T.changes tree.new) result }
{
    match find_leftovers(alloc, tree) {
        Ok(None) => settled(tree, back),
        Ok(Some(left)) => recovered(alloc, tree, left, back),
        Err(end) => end.into(),
    }
}

// Where nothing stands at the staging directory, in whatever direction.
fn settled<T: Tree>(tree: &mut T, back: bool) -> RecoverEnd
    requires absent { T.Tells → IsAbsent (current_tree (T.history tree.old)) staging }
    ensures answers { T.Tells → Answers back (T.history tree.old) (T.history tree.new)
        (T.before_failed tree.new) result }
    ensures faults { NamesFaults (T.faults tree.old) (T.faults tree.new) result }
    ensures kept { IsKept (T.changes tree.old) (T.changes tree.new) result }
{
    match sync(tree) {
        Ok(()) => RecoverEnd::Nothing,
        Err(first) => RecoverEnd::TreeFault { first },
    }
}

// Where this stands there.
fn recovered<T: Tree>(alloc: Global, tree: &mut T, left: Leftovers, back: bool) -> RecoverEnd
    requires standing { T.Tells → IsStanding (current_tree (T.history tree.old)) left }
    requires sorted_out { IsSortedOut left }
    ensures answers { T.Tells → Answers back (T.history tree.old) (T.history tree.new)
        (T.before_failed tree.new) result }
    ensures faults { NamesFaults (T.faults tree.old) (T.faults tree.new) result }
    ensures kept { IsKept (T.changes tree.old) (T.changes tree.new) result }
{
    match task_for(alloc, left, back) {
        Ok(task) => match sync_and_carry_out(tree, &task) {
            Ok(end) => end,
            Err(first) => RecoverEnd::TreeFault { first },
        },
        Err(Memory) => RecoverEnd::Memory,
    }
}
