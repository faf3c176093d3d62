// The parts of the steps, done or undone with their markers.
ghost use Rattle.std.specs.Prelude.{◌+◌, ◌<◌, length};
ghost use Rattle.commit_calls.specs.Cuts.{group_at};
ghost use Rattle.commit_steps.specs.Staging.{at_marker, back_marker};
ghost use Rattle.recovery_calls.specs.Works.{IfDone, IsMarked, IsWork, LeadsBack, LeadsForward, parts_ahead, parts_left, place_of};
ghost use Rattle.recovery_courses.specs.Course.{Follows};
ghost use Rattle.recovery_courses.specs.Parts.{redone_part, redone_parts, undone_part, undone_parts};
ghost use Rattle.tree_core.specs.Faults.{NamesFault};

use crate::way::Way;
use crate::work::Work;
use commit_calls::sync_and_rename;
use step_looks::{redo, undo_strictly};
use tree_core::{CallName, Tree};

// Does what is still to be done of each part of a way forward, and moves the marker from part to part.
pub(crate) fn redo_parts<T: Tree>(
    tree: &mut T,
    work: &Work,
    way: &Way,
) -> Result<Option<usize>, CallName>
    requires work { IsWork work.now }
    requires way { LeadsForward work.now.steps way.now }
    requires marked { T.Tells → IsMarked (at_marker way.now.from) work.now (T.history tree.old) }
    ensures follows { T.Tells → Follows (redone_parts way.now.from (parts_ahead work.now way.now)
        (T.history tree.old))
        (T.history tree.old) (T.history tree.new)
        (T.before_failed tree.old) (T.before_failed tree.new) result }
    ensures marked { T.Tells → IfDone result (IsMarked (at_marker (length work.now.steps)) work.now
        (T.history tree.new)) }
    ensures cause { NamesFault (T.faults tree.old) (T.faults tree.new) result }
{
    for k in 0..way.parts() {
        let strange = redo_part(tree, work, way, k)?;
        if strange.is_some() {
            return Ok(strange);
        }
    }
    Ok(None)
}

// Does what is still to be done of part number k of a way forward, and moves the marker to its end.
fn redo_part<T: Tree>(
    tree: &mut T,
    work: &Work,
    way: &Way,
    k: usize,
) -> Result<Option<usize>, CallName>
    requires work { IsWork work.now }
    requires way { LeadsForward work.now.steps way.now }
    requires part { k < length (parts_ahead work.now way.now) }
    requires marked { T.Tells → IsMarked (at_marker
        (place_of way.now.from (parts_ahead work.now way.now) k)) work.now (T.history tree.old) }
    ensures follows { T.Tells →
        Follows (redone_part (place_of way.now.from (parts_ahead work.now way.now) k)
        (group_at k (parts_ahead work.now way.now)) (T.history tree.old))
        (T.history tree.old) (T.history tree.new)
        (T.before_failed tree.old) (T.before_failed tree.new) result }
    ensures marked { T.Tells → IfDone result (IsMarked (at_marker (place_of way.now.from
        (parts_ahead work.now way.now) (k + 1))) work.now (T.history tree.new)) }
    ensures cause { NamesFault (T.faults tree.old) (T.faults tree.new) result }
{
    let from = way.place(k);
    let end = way.place(k + 1);
    let strange = redo(
        tree,
        work.part(from, end),
        work.part_parents(from, end),
        from,
    )?;
    if strange.is_some() {
        return Ok(strange);
    }
    sync_and_rename(tree, way.marker(k), way.marker(k + 1))?;
    Ok(None)
}

// Undoes what was done of each part of a way back, the last one first, and moves the marker from part to part.
pub(crate) fn undo_parts<T: Tree>(
    tree: &mut T,
    work: &Work,
    way: &Way,
) -> Result<Option<usize>, CallName>
    requires work { IsWork work.now }
    requires way { LeadsBack work.now.steps way.now }
    requires marked { T.Tells → IsMarked (back_marker way.now.from) work.now (T.history tree.old) }
    ensures follows { T.Tells → Follows (undone_parts 0 (parts_left work.now way.now)
        (T.history tree.old))
        (T.history tree.old) (T.history tree.new)
        (T.before_failed tree.old) (T.before_failed tree.new) result }
    ensures marked { T.Tells → IfDone result (IsMarked (back_marker 0) work.now
        (T.history tree.new)) }
    ensures cause { NamesFault (T.faults tree.old) (T.faults tree.new) result }
{
    for k in (0..way.parts()).rev() {
        let strange = undo_part(tree, work, way, k)?;
        if strange.is_some() {
            return Ok(strange);
        }
    }
    Ok(None)
}

// Undoes what was done of part number k of a way back, and moves the marker to its first place.
fn undo_part<T: Tree>(
    tree: &mut T,
    work: &Work,
    way: &Way,
    k: usize,
) -> Result<Option<usize>, CallName>
    requires work { IsWork work.now }
    requires way { LeadsBack work.now.steps way.now }
    requires part { k < length (parts_left work.now way.now) }
    requires marked { T.Tells → IsMarked (back_marker
        (place_of 0 (parts_left work.now way.now) (k + 1))) work.now (T.history tree.old) }
    ensures follows { T.Tells →
        Follows (undone_part (place_of 0 (parts_left work.now way.now) k)
        (group_at k (parts_left work.now way.now)) (T.history tree.old))
        (T.history tree.old) (T.history tree.new)
        (T.before_failed tree.old) (T.before_failed tree.new) result }
    ensures marked { T.Tells → IfDone result (IsMarked
        (back_marker (place_of 0 (parts_left work.now way.now) k)) work.now (T.history tree.new)) }
    ensures cause { NamesFault (T.faults tree.old) (T.faults tree.new) result }
{
    let from = way.place(k);
    let end = way.place(k + 1);
    let strange = undo_strictly(
        tree,
        work.part(from, end),
        work.part_parents(from, end),
        from,
    )?;
    if strange.is_some() {
        return Ok(strange);
    }
    sync_and_rename(tree, way.marker(k + 1), way.marker(k))?;
    Ok(None)
}
