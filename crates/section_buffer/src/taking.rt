// Rows that are taken out.
ghost use Rattle.std.specs.Prelude.{◌≡◌, Contains};
ghost use Rattle.section_buffer.specs.Held.{SectionTaken, steps_undone};

use link_rows::RowId;
use section_rows::{BufferRow, UndoRows};

// Takes a section out: its head, and the lines behind it up to the next head. Answers how many rows these are.
pub(crate) fn take_section(rows: &mut UndoRows, head: RowId) -> usize
    requires stands { Contains rows.old.order head.0 }
    requires built { rows.old.built ≡ 0 }
    ensures { SectionTaken rows.old head.0 result rows.new }
{
    rows.rows_differ();
    let _most = rows.len();
    let mut at = rows.next(head);
    rows.take(head);
    let mut count = 1;
    while let Some(row) = at {
        rows.rows_differ();
        let BufferRow::Line(_) = rows.get(row) else {
            return count;
        };
        at = rows.next(row);
        rows.take(row);
        count += 1;
    }
    count
}

// Undoes the last so many steps, in which rows were taken out.
pub(crate) fn undo_kill(rows: &mut UndoRows, count: usize)
    requires built { rows.old.built ≡ 0 }
    ensures { rows.new ≡ steps_undone count rows.old }
{
    for _ in 0..count {
        rows.undo();
    }
}
