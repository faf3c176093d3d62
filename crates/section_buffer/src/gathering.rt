// Sections, as they are handed out.
ghost use Rattle.std.specs.Prelude.{◌≡◌, ◌++◌, Contains, IfOk, IfSome, OnOk};
ghost use Rattle.std.specs.Option.{option_map};
ghost use Rattle.section_rows.specs.Orders.{rows_from, values_in};
ghost use Rattle.section_buffer.specs.Held.{first_section};
ghost use Rattle.section_buffer.specs.Rows.{lines_of, sections_of};

use crate::section::{Lines, Section};
use dired_text::Memory;
use link_rows::RowId;
use listing_text::Line;
use section_rows::{BufferRow, UndoRows};
use std::alloc::Global;

// An equal line, in memory of its own.
fn copy_of(line: &Line) -> Result<Line, Memory>
    ensures { IfOk result (λ copy. copy ≡ line.now) }
{
    Ok(Line {
        kind: line.kind,
        mode: line.mode,
        links: line.links,
        owner: line.owner.copy()?,
        group: line.group.copy()?,
        size: line.size,
        minute: line.minute,
        name: line.name.copy()?,
        target: line.target.copy()?,
    })
}

// Copies of the lines from this row on, up to the next head.
fn lines_from(alloc: Global, rows: &UndoRows, from: Option<RowId>) -> Result<Vec<Line>, Memory>
    requires { IfSome from (λ row. Contains rows.now.order row.0) }
    ensures { IfOk result (λ lines. lines.items ≡
        lines_of (values_in rows.now.values
        (rows_from (option_map (λ row. row.0) from) rows.now.order))) }
{
    rows.rows_differ();
    let mut lines = Vec::new(alloc);
    let mut at = from;
    while let Some(row) = at {
        let BufferRow::Line(line) = rows.get(row) else {
            return Ok(lines);
        };
        lines.push(copy_of(line)?)?;
        at = rows.next(row);
    }
    Ok(lines)
}

// Adds a copy of the section that begins with this row, if one does. The row behind it comes next.
fn push_section(
    alloc: Global,
    sections: &mut Vec<Section>,
    rows: &UndoRows,
    row: &BufferRow,
    next: Option<RowId>,
) -> Result<(), Memory>
    requires { IfSome next (λ row. Contains rows.now.order row.0) }
    ensures { OnOk result (sections.new.items ≡ sections.old.items ++
        first_section row.now (values_in rows.now.values
        (rows_from (option_map (λ row. row.0) next) rows.now.order))) }
{
    match row {
        BufferRow::Line(_) => Ok(()),
        BufferRow::Head { dir, hidden } => {
            let lines = Lines::from_vec(lines_from(alloc, rows, next)?);
            sections.push(Section {
                dir: dir.copy()?,
                hidden: *hidden,
                lines,
            })?;
            Ok(())
        }
    }
}

// Copies of the sections.
pub(crate) fn copy_sections(alloc: Global, rows: &UndoRows) -> Result<Vec<Section>, Memory>
    ensures { IfOk result (λ sections. sections.items ≡
        sections_of (values_in rows.now.values rows.now.order)) }
{
    rows.rows_differ();
    let mut sections = Vec::new(alloc);
    let mut at = rows.first();
    while let Some(row) = at {
        let next = rows.next(row);
        push_section(alloc, &mut sections, rows, rows.get(row), next)?;
        at = next;
    }
    Ok(sections)
}
