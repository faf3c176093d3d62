// Steps undone as looks tell.
ghost use Rattle.std.specs.Prelude.{◌≡◌, ◌+◌, ◌<◌, ◌^◌, IfOk, Some, length, reverse};
ghost use Rattle.std.specs.List.{AllByRecursion};
ghost use Rattle.tree_core.specs.FileTree.{CanDo};
ghost use Rattle.tree_core.specs.Faults.{NamesFault};
ghost use Rattle.tree_core.specs.History.{current_tree};
ghost use Rattle.tree_core.specs.Looks.{OnlyLooked, failed_in};
ghost use Rattle.step_trees.specs.Steps.{IsStep, undo_of};
ghost use Rattle.commit_states.specs.Calls.{undo_calls};
ghost use Rattle.step_looks.specs.Looks.{AreParents};
ghost use Rattle.step_looks.specs.Strictly.{strange_back, to_undo_strictly};
ghost use Rattle.step_looks.specs.Undoing.{any_goes_back, to_undo, RanOne, RanOrLooked};

use crate::{Parents, Seen, look_back};
use commit_steps::Step;
use dired_text::Failed;
use tree_core::{CallName, Tree};

/// Undoes the steps of which a look tells that they were done and can be undone, from the last to the first. The others are left.
/// `parents` has those of each step.
///
/// # Errors
/// The look or the call of this name failed. The calls before it were done.
pub fn undo_done<T: Tree>(tree: &mut T, steps: &[Step], parents: &[Parents]) -> Result<(), CallName>
    requires steps { AllByRecursion IsStep steps.now }
    requires parents { AreParents steps.now parents.now }
    ensures ran { T.Tells → RanOrLooked (undo_calls
        (to_undo steps.now (current_tree (T.history tree.old))))
        (T.history tree.old) (T.history tree.new) (T.before_failed tree.old)
        (T.before_failed tree.new) result }
    ensures faults { NamesFault (T.faults tree.old) (T.faults tree.new) result }
{
    for k in (0..steps.len()).rev() {
        let step = &steps[k];
        if look_back(tree, step, &parents[k])? == Some(Seen::After) {
            undo(tree, step)?;
        }
    }
    Ok(())
}

/// Whether a look tells of any of the steps that it was done and can be undone. `parents` has those of each step.
///
/// # Errors
/// The look of this name failed.
pub fn any_done<T: Tree>(
    tree: &mut T,
    steps: &[Step],
    parents: &[Parents],
) -> Result<bool, CallName>
    requires steps { AllByRecursion IsStep steps.now }
    requires parents { AreParents steps.now parents.now }
    ensures any { T.Tells → IfOk result (λ any. any ≡
        any_goes_back steps.now (current_tree (T.history tree.old))) }
    ensures looked { T.Tells → OnlyLooked (failed_in (λ call. Some call) result)
        (T.history tree.old) (T.history tree.new) (T.fields tree.old) (T.fields tree.new)
        (T.before_failed tree.old) (T.before_failed tree.new) }
    ensures faults { NamesFault (T.faults tree.old) (T.faults tree.new) result }
{
    for k in 0..steps.len() {
        if look_back(tree, &steps[k], &parents[k])? == Some(Seen::After) {
            return Ok(true);
        }
    }
    Ok(false)
}

/// Undoes the steps of which a look tells that they were done and can be undone, from the last to the first, and leaves those that
/// are still to be done. Ends behind the last step of which a look tells neither, and answers its number; `from` is the number of
/// the first one. `parents` has those of each step.
///
/// # Errors
/// The look or the call of this name failed. The calls before it were done.
pub fn undo_strictly<T: Tree>(
    tree: &mut T,
    steps: &[Step],
    parents: &[Parents],
    from: usize,
) -> Result<Option<usize>, CallName>
    requires steps { AllByRecursion IsStep steps.now }
    requires parents { AreParents steps.now parents.now }
    requires few { from + length steps.now < 2 ^ 64 }
    ensures ran { T.Tells → RanOrLooked (undo_calls
        (to_undo_strictly (reverse steps.now) (current_tree (T.history tree.old))))
        (T.history tree.old) (T.history tree.new) (T.before_failed tree.old)
        (T.before_failed tree.new) result }
    ensures strange { T.Tells → IfOk result (λ strange. strange ≡
        strange_back from (reverse steps.now) (current_tree (T.history tree.old))) }
    ensures faults { NamesFault (T.faults tree.old) (T.faults tree.new) result }
{
    for k in (0..steps.len()).rev() {
        let step = &steps[k];
        match look_back(tree, step, &parents[k])? {
            None => return Ok(Some(from + k)),
            Some(Seen::Before) => continue,
            Some(Seen::After) => undo(tree, step)?,
        }
    }
    Ok(None)
}

// Undoes a step.
fn undo<T: Tree>(tree: &mut T, step: &Step) -> Result<(), CallName>
    requires can { T.Tells → CanDo (undo_of step.now) (current_tree (T.history tree.old)) }
    ensures ran { T.Tells → RanOne (undo_of step.now)
        (T.history tree.old) (T.history tree.new) (T.before_failed tree.old)
        (T.before_failed tree.new) result }
    ensures faults { NamesFault (T.faults tree.old) (T.faults tree.new) result }
{
    match step {
        Step::MakeDir(path) => match tree.remove_dir(path) {
            Ok(()) => Ok(()),
            Err(Failed) => Err(CallName::RemoveDir),
        },
        Step::Rename(from, to) => match tree.rename(to, from) {
            Ok(()) => Ok(()),
            Err(Failed) => Err(CallName::Rename),
        },
        Step::Mode(path, old, _) => match tree.set_mode(path, *old) {
            Ok(()) => Ok(()),
            Err(Failed) => Err(CallName::SetMode),
        },
    }
}
