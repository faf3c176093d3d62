// The marks after files went to other paths.
ghost use Rattle.std.specs.Prelude.{◌≡◌, ℕ, IfOk, None, if◌then◌else◌};
ghost use Rattle.std.specs.FinMap.{get};
ghost use Rattle.dired_text.specs.Paths.{Names};
ghost use Rattle.mark_table.specs.PathMarks.{is_among};
ghost use Rattle.mark_table.specs.Moves.{mark_from, moved_marks, source_of, sources};

use crate::mark_map::MarkMap;
use dired_text::{Memory, Path};

// The marks without those of the sources.
fn departed(marks: &MarkMap, moves: &[(Path, Path)]) -> Result<MarkMap, Memory>
    ensures { IfOk result (λ m. (q : Names) → get m q ≡
        (if is_among q (sources moves.now) then None else get marks.now q)) }
{
    let mut next = marks.copy()?;
    for (source, _destination) in moves {
        next.remove(source);
    }
    Ok(next)
}

// Gives each destination what its source has in `marks`, or no mark.
fn arrived(mut next: MarkMap, marks: &MarkMap, moves: &[(Path, Path)]) -> Result<MarkMap, Memory>
    ensures { IfOk result (λ m. (q : Names) → get m q ≡
        mark_from marks.now (source_of moves.now q) (get next q)) }
{
    for (source, destination) in moves {
        next.put(destination, marks.get(source))?;
    }
    Ok(next)
}

/// The marks after all of these moves at once.
pub fn moved(marks: &MarkMap, moves: &[(Path, Path)]) -> Result<MarkMap, Memory>
    ensures { IfOk result (λ m. m ≡ moved_marks moves.now marks.now) }
{
    let next = departed(marks, moves)?;
    arrived(next, marks, moves)
}
