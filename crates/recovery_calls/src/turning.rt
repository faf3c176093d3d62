// Where the marker turns round.
ghost use Rattle.std.specs.Prelude.{◌≡◌, ◌+◌, ◌<◌, ◌≤◌, ◌^◌, IfOk, Some, length};
ghost use Rattle.std.specs.List.{AllByRecursion};
ghost use Rattle.commit_steps.specs.Staging.{at_marker, back_marker, staged};
ghost use Rattle.recovery_calls.specs.Looked.{looked_of};
ghost use Rattle.recovery_calls.specs.Works.{IfDone, IsMarked, IsTurn, IsWork, LeadsBack};
ghost use Rattle.recovery_courses.specs.Course.{Follows};
ghost use Rattle.recovery_courses.specs.Parts.{turned_at, turned_from};
ghost use Rattle.step_cuts.specs.Cuts.{ends_of};
ghost use Rattle.step_looks.specs.Looks.{AreParents};
ghost use Rattle.step_trees.specs.Groups.{groups};
ghost use Rattle.step_trees.specs.Steps.{IsStep};
ghost use Rattle.tree_core.specs.Faults.{NamesFault};
ghost use Rattle.tree_core.specs.History.{current_tree};
ghost use Rattle.tree_core.specs.Looks.{OnlyLooked, failed_in};

use crate::parts::undo_parts;
use crate::way::{Way, back_way, next_cut};
use crate::work::Work;
use commit_calls::{at_markers, rename_and_sync};
use commit_steps::Step;
use dired_text::{Memory, Path};
use std::alloc::Global;
use step_looks::{Parents, Seen, look_back};
use tree_core::{CallName, Tree};

/// What a recovery back takes with it where the marker `at-M` stands.
#[derive(Drop)]
pub struct Turn {
    /// The path of that marker.
    pub marker: Path,
    /// The way back from place M.
    pub here: Way,
    /// The way back from the next cut behind M, which is M where it is the end of the steps.
    pub next: Way,
}

/// What a recovery back takes with it where the marker `at-M` stands, by M. `ends` are where the groups of the steps end.
///
/// # Errors
/// `Memory` where an allocation was refused.
pub fn turn_of(alloc: Global, steps: &[Step], ends: &[usize], from: usize) -> Result<Turn, Memory>
    requires ends { ends.now ≡ ends_of 0 (groups steps.now) }
    requires within { from ≤ length steps.now }
    ensures turn { IfOk result (λ t. IsTurn steps.now t) }
    ensures from { IfOk result (λ t. t.here.from ≡ from) }
{
    let here = back_way(alloc, steps, ends, from)?;
    let next = back_way(alloc, steps, ends, next_cut(ends, from))?;
    let mut markers = at_markers(alloc, &[from])?;
    match markers.pop() {
        Some(marker) => Ok(Turn { marker, here, next }),
        None => unreachable!(),
    }
}

// What looks at steps tell together.
#[derive(Clone, Copy, Debug, PartialEq, Eq)]
pub(crate) enum Looked {
    // Of the step of this number neither that it was done nor that it is still to be done.
    Strange(usize),
    // All are still to be done.
    NoneDone,
    // Some were done.
    SomeDone,
}

// Looks at steps that may be undone. `parents` has those of each step, and `from` is the number of the first one.
fn look_at_all<T: Tree>(
    tree: &mut T,
    steps: &[Step],
    parents: &[Parents],
    from: usize,
) -> Result<Looked, CallName>
    requires steps { AllByRecursion IsStep steps.now }
    requires parents { AreParents steps.now parents.now }
    requires few { from + length steps.now < 2 ^ 64 }
    ensures told { T.Tells → IfOk result (λ looked. looked ≡
        looked_of from steps.now (current_tree (T.history tree.old))) }
    ensures looked { T.Tells → OnlyLooked (failed_in (λ call. Some call) result)
        (T.history tree.old) (T.history tree.new) (T.fields tree.old) (T.fields tree.new)
        (T.before_failed tree.old) (T.before_failed tree.new) }
    ensures cause { NamesFault (T.faults tree.old) (T.faults tree.new) result }
{
    let mut some_done = false;
    for k in 0..steps.len() {
        match look_back(tree, &steps[k], &parents[k])? {
            None => return Ok(Looked::Strange(from + k)),
            Some(Seen::Before) => {}
            Some(Seen::After) => some_done = true,
        }
    }
    if some_done {
        return Ok(Looked::SomeDone);
    }
    Ok(Looked::NoneDone)
}

// Turns the marker round, unless a look tells of something strange, and goes back to the first place.
pub(crate) fn turn_back<T: Tree>(
    tree: &mut T,
    work: &Work,
    turn: &Turn,
) -> Result<Option<usize>, CallName>
    requires work { IsWork work.now }
    requires turn { IsTurn work.now.steps turn.now }
    requires marked { T.Tells → IsMarked (at_marker turn.now.here.from) work.now
        (T.history tree.old) }
    ensures follows { T.Tells → Follows (turned_from work.now.steps turn.now.here.from
        (T.history tree.old))
        (T.history tree.old) (T.history tree.new)
        (T.before_failed tree.old) (T.before_failed tree.new) result }
    ensures marked { T.Tells → IfDone result (IsMarked (back_marker 0) work.now
        (T.history tree.new)) }
    ensures cause { NamesFault (T.faults tree.old) (T.faults tree.new) result }
{
    let from = turn.here.from;
    let end = turn.next.from;
    let steps = work.part(from, end);
    match look_at_all(tree, steps, work.part_parents(from, end), from)? {
        Looked::Strange(step) => Ok(Some(step)),
        Looked::NoneDone => turn_to(tree, work, &turn.marker, &turn.here, from),
        Looked::SomeDone => turn_to(tree, work, &turn.marker, &turn.next, from),
    }
}

// Moves the marker to the begin of a way back, and goes that way.
fn turn_to<T: Tree>(
    tree: &mut T,
    work: &Work,
    marker: &Path,
    way: &Way,
    from: usize,
) -> Result<Option<usize>, CallName>
    requires work { IsWork work.now }
    requires way { LeadsBack work.now.steps way.now }
    requires small { way.now.from < 2 ^ 64 }
    requires marker { marker.now ≡ staged (at_marker from) }
    requires marked { T.Tells → IsMarked (at_marker from) work.now (T.history tree.old) }
    ensures follows { T.Tells → Follows (turned_at work.now.steps from way.now.from
        (T.history tree.old))
        (T.history tree.old) (T.history tree.new)
        (T.before_failed tree.old) (T.before_failed tree.new) result }
    ensures marked { T.Tells → IfDone result (IsMarked (back_marker 0) work.now
        (T.history tree.new)) }
    ensures cause { NamesFault (T.faults tree.old) (T.faults tree.new) result }
{
    rename_and_sync(tree, marker, way.marker(way.parts()))?;
    undo_parts(tree, work, way)
}
