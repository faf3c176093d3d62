// What `put` leaves at each path, and what undo leaves.
ghost use Rattle.std.specs.Prelude.{◌≡◌, ℕ, Option, if◌then◌else◌};
ghost use Rattle.std.specs.FinMap.{get};
ghost use Rattle.dired_text.specs.Paths.{Names};
ghost use Rattle.mark_table.specs.PathMarks.{PathMarks, is_among, with_each};
ghost use Rattle.session_marks.specs.Histories.{gains, taken_back};

use crate::UndoMarks;
use dired_text::Path;

/// After `put` each of these paths has the mark, or none; every other path has what it had.
pub fn put_at_each_path(marks: &UndoMarks, paths: &[Path])
    ensures { (mark : Option ℕ) (p : Names) →
        get (with_each (λ _. mark) paths.now marks.now.marks) p ≡
        (if is_among p paths.now then mark else get marks.now.marks p) }
{}

/// `undo` after a change, whatever marks it left, leaves the marks and the undo list from before it.
pub fn undo_takes_a_change_back(marks: &UndoMarks)
    ensures { (m : PathMarks) → taken_back (gains m marks.now) ≡ marks.now }
{}
