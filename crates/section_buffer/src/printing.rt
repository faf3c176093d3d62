// The text of a buffer.
ghost use Rattle.std.specs.Prelude.{◌≡◌, ◌++◌, ℕ, IfOk, OnOk, is_some};
ghost use Rattle.std.specs.FinMap.{get};
ghost use Rattle.dired_text.specs.Paths.{Names};
ghost use Rattle.dired_text.specs.Resolve.{resolved};
ghost use Rattle.mark_table.specs.PathMarks.{is_among};
ghost use Rattle.section_buffer.specs.Printed.{printed, printed_at, printed_lines as lines_printed, section_printed};

use crate::section::Section;
use dired_text::{Bytes, Memory, NameError, Path, resolve};
use listing_text::{Line, header_text, section_text};
use mark_table::{Marks, toggled_at_each_path};
use std::alloc::Global;

// A table in which each of these paths has a mark.
fn table_of(alloc: Global, paths: &[Path]) -> Result<Marks, Memory>
    ensures { IfOk result
        (λ table. (p : Names) → is_some (get table.marks p) ≡ is_among p paths.now) }
{
    let mut table = Marks::new(alloc)?;
    toggled_at_each_path(&table, paths);
    table.toggle(paths)?;
    Ok(table)
}

// A line with its mark, or None where its path has a mark in the second table, of those that are left out.
fn printed_line(
    alloc: Global,
    dir: &Path,
    line: Line,
    marks: &Marks,
    omitted: &Marks,
) -> Result<Option<(u8, Line)>, Memory>
    ensures { IfOk result (λ found. found ≡
        printed_at marks.now.marks (λ p. is_some (get omitted.now.marks p))
        (resolved dir.now line.name) line) }
{
    match resolve(alloc, dir, line.name.as_str()) {
        Err(NameError::Memory) => Err(Memory),
        Err(_) => Ok(Some((b' ', line))),
        Ok(path) => {
            if omitted.get(&path).is_some() {
                return Ok(None);
            }
            Ok(Some((marks.get(&path).unwrap_or(b' '), line)))
        }
    }
}

// The lines that are printed.
fn printed_lines(
    alloc: Global,
    dir: &Path,
    lines: Vec<Line>,
    marks: &Marks,
    omitted: &Marks,
) -> Result<Vec<(u8, Line)>, Memory>
    ensures { IfOk result (λ shown. shown.items ≡
        lines_printed marks.now.marks (λ p. is_some (get omitted.now.marks p)) dir.now
        lines.items) }
{
    let mut shown = Vec::new(alloc);
    for line in lines {
        if let Some(listed) = printed_line(alloc, dir, line, marks, omitted)? {
            shown.push(listed)?;
        }
    }
    Ok(shown)
}

// Adds the text of a section.
fn push_section(
    alloc: Global,
    text: &mut Vec<u8>,
    section: Section,
    marks: &Marks,
    omitted: &Marks,
) -> Result<(), Memory>
    ensures { OnOk result (text.new.items ≡ text.old.items ++
        section_printed marks.now.marks (λ p. is_some (get omitted.now.marks p)) section) }
{
    let Section { dir, hidden, lines } = section;
    if hidden {
        text.extend_from_slice(header_text(alloc, &dir)?.as_slice())?;
        text.extend_from_slice(b" ...\n")?;
        return Ok(());
    }
    let lines = printed_lines(alloc, &dir, lines.into_vec(), marks, omitted)?;
    text.extend_from_slice(section_text(alloc, &dir, &lines)?.as_slice())?;
    Ok(())
}

// The text of these sections, without the lines whose paths have a mark in the second table.
fn text_without(
    alloc: Global,
    sections: Vec<Section>,
    marks: &Marks,
    omitted: &Marks,
) -> Result<Bytes, Memory>
    ensures { IfOk result (λ text. text ≡
        printed marks.now.marks (λ p. is_some (get omitted.now.marks p)) sections.items) }
{
    let mut text = Vec::new(alloc);
    text.extend_from_slice(b"dired 1")?;
    for section in sections {
        text.push(b'\n')?;
        push_section(alloc, &mut text, section, marks, omitted)?;
    }
    Ok(Bytes::from_vec(text))
}

// The text of these sections, without the lines of these paths.
pub(crate) fn text_of(
    alloc: Global,
    sections: Vec<Section>,
    marks: &Marks,
    omitted: &[Path],
) -> Result<Bytes, Memory>
    ensures { IfOk result (λ text. text ≡
        printed marks.now.marks (λ p. is_among p omitted.now) sections.items) }
{
    let table = table_of(alloc, omitted)?;
    text_without(alloc, sections, marks, &table)
}
