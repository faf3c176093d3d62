// Steps, done and undone in groups.
ghost use Rattle.std.specs.Prelude.{◌≡◌, ◌<◌, [], ◌∷◌, length, IfOk, IfErr, MatchResult};
ghost use Rattle.tree_core.specs.Runs.{CanAll, Ran, then_all};
ghost use Rattle.tree_core.specs.Faults.{NamesFault, with_fault};
ghost use Rattle.commit_states.specs.Calls.{do_calls, undo_calls, marked_calls, unmarked_calls, calls_from};
ghost use Rattle.step_trees.specs.Groups.{groups};
ghost use Rattle.commit_calls.specs.Cuts.{StoppedIn};
ghost use Rattle.step_cuts.specs.Cuts.{ends_of};
ghost use Rattle.commit_calls.specs.Paths.{at_marker_paths};

use crate::calls::{do_step, sync_and_rename, undo_step};
use commit_steps::Step;
use dired_text::Path;
use tree_core::{CallName, Tree};

// Does these steps, one after another.
fn do_all<T: Tree>(tree: &mut T, steps: &[Step]) -> Result<(), CallName>
    requires can { T.Tells → CanAll (do_calls steps.now) (T.history tree.old) }
    ensures ran { T.Tells → Ran (do_calls steps.now) (T.history tree.old) (T.history tree.new)
        (T.before_failed tree.old) (T.before_failed tree.new) result }
    ensures cause { NamesFault (T.faults tree.old) (T.faults tree.new) result }
{
    for step in steps {
        do_step(tree, step)?;
    }
    Ok(())
}

// Undoes these steps, the last one first.
fn undo_all<T: Tree>(tree: &mut T, steps: &[Step]) -> Result<(), CallName>
    requires can { T.Tells → CanAll (undo_calls steps.now) (T.history tree.old) }
    ensures ran { T.Tells → Ran (undo_calls steps.now) (T.history tree.old) (T.history tree.new)
        (T.before_failed tree.old) (T.before_failed tree.new) result }
    ensures cause { NamesFault (T.faults tree.old) (T.faults tree.new) result }
{
    for k in (0..steps.len()).rev() {
        undo_step(tree, &steps[k])?;
    }
    Ok(())
}

/// Does the steps of a group, and then its marker.
pub fn do_group<T: Tree>(
    tree: &mut T,
    steps: &[Step],
    marker: &Path,
    next: &Path,
) -> Result<(), CallName>
    requires can { T.Tells → CanAll (marked_calls steps.now marker.now next.now)
        (T.history tree.old) }
    ensures ran { T.Tells → Ran (marked_calls steps.now marker.now next.now) (T.history tree.old)
        (T.history tree.new) (T.before_failed tree.old) (T.before_failed tree.new) result }
    ensures cause { NamesFault (T.faults tree.old) (T.faults tree.new) result }
{
    do_all(tree, steps)?;
    sync_and_rename(tree, marker, next)
}

/// Undoes the steps of a group, the last one first, and then its marker.
pub fn undo_group<T: Tree>(
    tree: &mut T,
    steps: &[Step],
    marker: &Path,
    next: &Path,
) -> Result<(), CallName>
    requires can { T.Tells → CanAll (unmarked_calls steps.now marker.now next.now)
        (T.history tree.old) }
    ensures ran { T.Tells → Ran (unmarked_calls steps.now marker.now next.now) (T.history tree.old)
        (T.history tree.new) (T.before_failed tree.old) (T.before_failed tree.new) result }
    ensures cause { NamesFault (T.faults tree.old) (T.faults tree.new) result }
{
    undo_all(tree, steps)?;
    sync_and_rename(tree, marker, next)
}

/// A call failed while groups of steps were done.
#[derive(Clone, Copy, Debug, PartialEq, Eq)]
pub struct Stopped {
    /// The call that failed.
    pub first: CallName,
    /// The number of its group. The groups before it were done.
    pub group: usize,
}

/// Does the groups in order, each with its marker.
///
/// # Errors
/// The call that failed, and the number of its group.
pub fn do_groups<T: Tree>(
    tree: &mut T,
    steps: &[Step],
    ends: &[usize],
    markers: &[Path],
) -> Result<(), Stopped>
    requires cuts { ends.now ≡ ends_of 0 (groups steps.now) }
    requires markers { markers.now ≡ at_marker_paths (0 ∷ ends.now) }
    requires can { T.Tells → CanAll (calls_from 0 (groups steps.now)) (T.history tree.old) }
    ensures done { T.Tells → IfOk result (λ _. (T.history tree.new ≡ then_all (T.history tree.old)
        (calls_from 0 (groups steps.now)))
        × (T.before_failed tree.new ≡ T.before_failed tree.old)) }
    ensures stopped { T.Tells → IfErr result
        (λ s. StoppedIn (groups steps.now) s (T.history tree.old) (T.history tree.new)
        (T.before_failed tree.new)) }
    ensures within { IfErr result (λ s. s.group < length (groups steps.now)) }
    ensures cause { MatchResult result (λ _. T.faults tree.new ≡ T.faults tree.old)
        (λ s. T.faults tree.new ≡ with_fault s.first (T.faults tree.old)) }
{
    let mut from: usize = 0;
    for k in 0..ends.len() {
        let end = ends[k];
        let group = &steps[from..end];
        match do_group(tree, group, &markers[k], &markers[k + 1]) {
            Ok(()) => from = end,
            Err(first) => return Err(Stopped { first, group: k }),
        }
    }
    Ok(())
}
