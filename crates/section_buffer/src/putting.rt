// Sections that are put in.
ghost use Rattle.section_buffer.specs.Buffers.{rows_of_section};
ghost use Rattle.std.specs.Prelude.{◌≡◌, ◌<◌, ◌^◌};
ghost use Rattle.section_buffer.specs.Held.{Makes, changes_in};

use crate::kept::Kept;
use dired_text::{Memory, Path};
use link_rows::RowId;
use listing_text::Line;
use section_rows::{BufferRow, UndoRows};

// Makes the rows of a section, which are to be put in, and answers the first. After a refusal some rows may be made.
pub(crate) fn make_rows(
    rows: &mut UndoRows,
    dir: Path,
    hidden: bool,
    lines: Vec<Line>,
) -> Result<RowId, Memory>
    ensures { Makes (rows_of_section dir hidden lines.items) result rows.old rows.new }
{
    let head = rows.push(BufferRow::Head { dir, hidden })?;
    for line in lines {
        rows.push(BufferRow::Line(line))?;
    }
    Ok(head)
}

// How many rows were killed, and sections put in.
pub(crate) fn changes_of(kept: &[Kept]) -> usize
    requires { changes_in kept.now < 2 ^ 64 }
    ensures { result ≡ changes_in kept.now }
{
    let mut changes = 0;
    for change in kept {
        changes += match change {
            Kept::Kill(count) => *count,
            Kept::Insertion(_, _) => 1,
        };
    }
    changes
}
