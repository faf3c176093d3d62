// What is seen of one section.
ghost use Rattle.std.specs.Prelude.{◌≡◌};
ghost use Rattle.section_rows.specs.Orders.{values_in};
ghost use Rattle.section_buffer.specs.Rows.{sections_of};
ghost use Rattle.section_buffer.specs.Sections.{hidden_at};

use crate::finding::head_row;
use dired_text::Path;
use section_rows::{BufferRow, UndoRows};

// Whether the lines of a directory's section are hidden, or None where there is no such section.
pub(crate) fn section_hidden(rows: &UndoRows, dir: &Path) -> Option<bool>
    ensures { result ≡ hidden_at dir.now (sections_of (values_in rows.now.values rows.now.order)) }
{
    let Some(head) = head_row(rows, dir) else {
        return None;
    };
    rows.rows_differ();
    match rows.get(head) {
        BufferRow::Head { hidden, .. } => Some(*hidden),
        BufferRow::Line(_) => None,
    }
}
