// Steps done as looks tell.
ghost use Rattle.std.specs.Prelude.{◌≡◌, ◌+◌, ◌<◌, ◌^◌, IfOk, length};
ghost use Rattle.std.specs.List.{AllByRecursion};
ghost use Rattle.tree_core.specs.FileTree.{CanDo};
ghost use Rattle.tree_core.specs.Faults.{NamesFault};
ghost use Rattle.tree_core.specs.History.{current_tree};
ghost use Rattle.step_trees.specs.Steps.{IsStep, call_of};
ghost use Rattle.commit_states.specs.Calls.{do_calls};
ghost use Rattle.step_looks.specs.Looks.{AreParents};
ghost use Rattle.step_looks.specs.Redoing.{strange_redo, to_redo};
ghost use Rattle.step_looks.specs.Undoing.{RanOne, RanOrLooked};

use crate::{Parents, Seen, look};
use commit_steps::Step;
use dired_text::Failed;
use tree_core::{CallName, Tree};

// The mode of a directory that a step makes.
const DIR_MODE: u16 = 0o755;

/// Does the steps of which a look tells that they are still to be done, from the first to the last, and leaves those that were done.
/// Ends before the first step of which a look tells neither, and answers its number; `from` is the number of the first one.
/// `parents` has those of each step.
///
/// # Errors
/// The look or the call of this name failed. The calls before it were done.
pub fn redo<T: Tree>(
    tree: &mut T,
    steps: &[Step],
    parents: &[Parents],
    from: usize,
) -> Result<Option<usize>, CallName>
    requires steps { AllByRecursion IsStep steps.now }
    requires parents { AreParents steps.now parents.now }
    requires few { from + length steps.now < 2 ^ 64 }
    ensures ran { T.Tells → RanOrLooked (do_calls (to_redo steps.now
        (current_tree (T.history tree.old))))
        (T.history tree.old) (T.history tree.new) (T.before_failed tree.old)
        (T.before_failed tree.new) result }
    ensures strange { T.Tells → IfOk result (λ strange. strange ≡
        strange_redo from steps.now (current_tree (T.history tree.old))) }
    ensures faults { NamesFault (T.faults tree.old) (T.faults tree.new) result }
{
    for k in 0..steps.len() {
        let step = &steps[k];
        match look(tree, step, &parents[k])? {
            None => return Ok(Some(from + k)),
            Some(Seen::After) => continue,
            Some(Seen::Before) => do_step(tree, step)?,
        }
    }
    Ok(None)
}

// Does a step.
fn do_step<T: Tree>(tree: &mut T, step: &Step) -> Result<(), CallName>
    requires can { T.Tells → CanDo (call_of step.now) (current_tree (T.history tree.old)) }
    ensures ran { T.Tells → RanOne (call_of step.now)
        (T.history tree.old) (T.history tree.new) (T.before_failed tree.old)
        (T.before_failed tree.new) result }
    ensures faults { NamesFault (T.faults tree.old) (T.faults tree.new) result }
{
    match step {
        Step::MakeDir(path) => match tree.make_dir(path, DIR_MODE) {
            Ok(()) => Ok(()),
            Err(Failed) => Err(CallName::MakeDir),
        },
        Step::Rename(from, to) => match tree.rename(from, to) {
            Ok(()) => Ok(()),
            Err(Failed) => Err(CallName::Rename),
        },
        Step::Mode(path, _, new) => match tree.set_mode(path, *new) {
            Ok(()) => Ok(()),
            Err(Failed) => Err(CallName::SetMode),
        },
    }
}
