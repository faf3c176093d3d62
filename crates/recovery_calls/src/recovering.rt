// From `plan` and a marker to the old or the edited tree.
ghost use Rattle.commit_steps.specs.Staging.{at_marker, back_marker};
ghost use Rattle.recovery_calls.specs.Works.{IsMarked, IsTurn, IsWork, LeadsBack, LeadsForward, entries_of};
ghost use Rattle.recovery_courses.specs.Course.{Follows};
ghost use Rattle.recovery_courses.specs.Ends.{back_from as back_course, forward_from as forward_course, turned_back_from as turned_course};
ghost use Rattle.tree_core.specs.Faults.{NamesFault};

use crate::ending::{Ending, end};
use crate::parts::{redo_parts, undo_parts};
use crate::turning::{Turn, turn_back};
use crate::way::Way;
use crate::work::Work;
use tree_core::{CallName, Tree};

/// Goes forward from the marker `at-M`, where the way begins, to the edited tree. Ends at a step of which a look tells neither that it
/// is still to be done nor that it was done, and answers its number, or the number of steps where something stands in the staging
/// directory that no commit leaves there.
///
/// # Errors
/// The look or the call of this name failed. The calls before it were done.
pub fn forward_from<T: Tree>(
    tree: &mut T,
    work: &Work,
    way: &Way,
) -> Result<Option<usize>, CallName>
    requires work { IsWork work.now }
    requires way { LeadsForward work.now.steps way.now }
    requires marked { T.Tells → IsMarked (at_marker way.now.from) work.now (T.history tree.old) }
    ensures follows { T.Tells → Follows (forward_course work.now.steps way.now.from
        (entries_of work.now) (T.history tree.old))
        (T.history tree.old) (T.history tree.new)
        (T.before_failed tree.old) (T.before_failed tree.new) result }
    ensures cause { NamesFault (T.faults tree.old) (T.faults tree.new) result }
{
    let strange = redo_parts(tree, work, way)?;
    if strange.is_some() {
        return Ok(strange);
    }
    end(tree, work, Ending::Sealed, way.marker(way.parts()))
}

/// Goes back from the marker `back-M`, where the way begins, to the old tree. Ends as [`forward_from`] does, but that 0 stands for
/// something strange in the staging directory.
///
/// # Errors
/// The look or the call of this name failed. The calls before it were done.
pub fn back_from<T: Tree>(tree: &mut T, work: &Work, way: &Way) -> Result<Option<usize>, CallName>
    requires work { IsWork work.now }
    requires way { LeadsBack work.now.steps way.now }
    requires marked { T.Tells → IsMarked (back_marker way.now.from) work.now (T.history tree.old) }
    ensures follows { T.Tells → Follows (back_course work.now.steps way.now.from
        (entries_of work.now) (T.history tree.old))
        (T.history tree.old) (T.history tree.new)
        (T.before_failed tree.old) (T.before_failed tree.new) result }
    ensures cause { NamesFault (T.faults tree.old) (T.faults tree.new) result }
{
    let strange = undo_parts(tree, work, way)?;
    if strange.is_some() {
        return Ok(strange);
    }
    end(tree, work, Ending::Undone, way.marker(0))
}

/// Goes back from the marker `at-M` to the old tree: the marker turns round at the next cut behind M if a step before that was done, and
/// else at M. Ends as [`back_from`] does.
///
/// # Errors
/// The look or the call of this name failed. The calls before it were done.
pub fn turned_back_from<T: Tree>(
    tree: &mut T,
    work: &Work,
    turn: &Turn,
) -> Result<Option<usize>, CallName>
    requires work { IsWork work.now }
    requires turn { IsTurn work.now.steps turn.now }
    requires marked { T.Tells → IsMarked (at_marker turn.now.here.from) work.now
        (T.history tree.old) }
    ensures follows { T.Tells → Follows (turned_course work.now.steps turn.now.here.from
        (entries_of work.now) (T.history tree.old))
        (T.history tree.old) (T.history tree.new)
        (T.before_failed tree.old) (T.before_failed tree.new) result }
    ensures cause { NamesFault (T.faults tree.old) (T.faults tree.new) result }
{
    let strange = turn_back(tree, work, turn)?;
    if strange.is_some() {
        return Ok(strange);
    }
    end(tree, work, Ending::Undone, turn.here.marker(0))
}
