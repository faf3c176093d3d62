// Marks given to some paths, and given back.
ghost use Rattle.std.specs.Prelude.{◌≡◌, IfOk, OnOk, OnErr};
ghost use Rattle.mark_table.specs.PathMarks.{marked, with_each};
ghost use Rattle.mark_table.specs.Tables.{with_marks};
ghost use Rattle.session_marks.specs.Keeping.{back, differing, had, marks_back, paths_of};

use crate::kept::Kept;
use dired_text::{Memory, Path};
use mark_table::Marks;
use std::alloc::Global;

/// Those of these paths that have another mark, with what they have.
pub fn others(
    alloc: Global,
    marks: &Marks,
    paths: &[Path],
    mark: Option<u8>,
) -> Result<Vec<(Path, Option<u8>)>, Memory>
    ensures { IfOk result (λ v. v.items ≡
        had marks.now.marks (differing marks.now.marks mark paths.now)) }
{
    let mut others = Vec::new(alloc);
    for path in paths {
        let found = marks.get(path);
        if found != mark {
            others.push((path.copy()?, found))?;
        }
    }
    Ok(others)
}

// Gives a path this mark, or none.
fn put(marks: &mut Marks, path: &Path, mark: Option<u8>) -> Result<(), Memory>
    ensures ok { OnOk result (marks.new ≡
        with_marks marks.old (marked marks.old.marks path.now mark)) }
    ensures err { OnErr result (marks.new ≡ marks.old) }
{
    match mark {
        None => {
            marks.clear(path);
            Ok(())
        }
        Some(mark) => match marks.set(path.copy()?, mark) {
            Ok(()) => Ok(()),
            // Every mark here was asked for or found as one, so what is wanting is memory.
            Err(_) => Err(Memory),
        },
    }
}

/// Gives the path of each pair this mark, or none. After a refusal some of them may have it, and what stands beside them
/// leads where it led before.
pub fn put_each(
    marks: &mut Marks,
    pairs: &[(Path, Option<u8>)],
    mark: Option<u8>,
) -> Result<(), Memory>
    ensures ok { OnOk result (marks.new ≡ with_marks marks.old
        (with_each (λ _. mark) (paths_of pairs.now) marks.old.marks)) }
    ensures err { OnErr result (with_marks marks.new (marks_back pairs.now marks.new.marks) ≡
        with_marks marks.old (marks_back pairs.now marks.old.marks)) }
{
    for (path, _had) in pairs {
        put(marks, path, mark)?;
    }
    Ok(())
}

// Gives the path of each pair what stands beside it. After a refusal another try leads to the same marks.
fn put_back(marks: &mut Marks, pairs: &[(Path, Option<u8>)]) -> Result<(), Memory>
    ensures ok { OnOk result (marks.new ≡
        with_marks marks.old (marks_back pairs.now marks.old.marks)) }
    ensures err { OnErr result (with_marks marks.new (marks_back pairs.now marks.new.marks) ≡
        with_marks marks.old (marks_back pairs.now marks.old.marks)) }
{
    for (path, had) in pairs {
        put(marks, path, *had)?;
    }
    Ok(())
}

/// Goes back over the change of which this is kept. After a refusal another try leads to the same marks.
pub fn go_back(marks: &mut Marks, kept: &Kept) -> Result<(), Memory>
    ensures ok { OnOk result (marks.new ≡ back kept.now marks.old) }
    ensures err { OnErr result (back kept.now marks.new ≡ back kept.now marks.old) }
{
    match kept {
        Kept::Differences(pairs) => put_back(marks, pairs),
        Kept::Copy => {
            let _ = marks.undo();
            Ok(())
        }
    }
}
