// The lines that print.
ghost use Rattle.std.specs.Prelude.{◌≡◌, ◌+◌, ◌++◌, IfOk, OnOk, length};
ghost use Rattle.std.specs.Option.{option_map};
ghost use Rattle.omit_rules.specs.Omitters.{rules_of};
ghost use Rattle.shown_lines.specs.Shown.{height, numbered, printing, shown, shown_in};

use crate::Entry;
use crate::omitting::{Outcome, decide, omitter_of};
use dired_text::{Memory, Path};
use listing_text::Line;
use mark_table::Marks;
use omit_rules::{Omitter, Rules};
use section_buffer::{Buffer, Section};
use std::alloc::Global;

// The number of a line so many further down. More lines than a `u32` counts are taken for want of memory.
fn further(number: u32, lines: u32) -> Result<u32, Memory>
    ensures { IfOk result (λ next. next ≡ number + lines) }
{
    number.checked_add(lines).ok_or(Memory)
}

// Adds the lines of a directory that print, of which the first has this number. Answers the number behind the last.
fn push_lines(
    alloc: Global,
    entries: &mut Vec<Entry>,
    dir: &Path,
    lines: Vec<Line>,
    first: u32,
    marks: &Marks,
    omitter: &mut Option<Omitter<'_>>,
) -> Result<u32, Memory>
    ensures entries { OnOk result (entries.new.items ≡ entries.old.items ++ numbered first dir.now
        (printing (option_map rules_of omitter.old) marks.now.marks dir.now lines.items)) }
    ensures number { IfOk result (λ number. number ≡ first + length
        (printing (option_map rules_of omitter.old) marks.now.marks dir.now lines.items)) }
    ensures same { option_map rules_of omitter.new ≡ option_map rules_of omitter.old }
{
    let mut number = first;
    for line in lines {
        match decide(alloc, dir, &line, marks, omitter)? {
            Outcome::Omitted(_) => {}
            Outcome::Unnamed => number = further(number, 1)?,
            Outcome::Shown(path) => {
                entries.push(Entry {
                    path,
                    kind: line.kind,
                    mode: line.mode,
                    number,
                })?;
                number = further(number, 1)?;
            }
        }
    }
    Ok(number)
}

// Adds the shown lines of a section that begins at this line. Answers where the next one begins.
fn push_section(
    alloc: Global,
    entries: &mut Vec<Entry>,
    section: Section,
    number: u32,
    marks: &Marks,
    omitter: &mut Option<Omitter<'_>>,
) -> Result<u32, Memory>
    ensures entries { OnOk result (entries.new.items ≡ entries.old.items ++
        shown_in (option_map rules_of omitter.old) marks.now.marks number section) }
    ensures number { IfOk result (λ next. next ≡ number +
        height (option_map rules_of omitter.old) marks.now.marks section) }
    ensures same { option_map rules_of omitter.new ≡ option_map rules_of omitter.old }
{
    let Section { dir, hidden, lines } = section;
    let behind_header = further(number, 2)?;
    if hidden {
        return Ok(behind_header);
    }
    let lines = lines.into_vec();
    let behind = push_lines(alloc, entries, &dir, lines, behind_header, marks, omitter)?;
    further(behind, 1)
}

/// The lines of a buffer that print: those of sections that aren't hidden, without the omitted ones where there are rules
/// for omitting. A line whose name has no path from its directory prints and counts, and isn't among them.
///
/// # Errors
/// Want of memory, as which more than 4,294,967,295 lines count.
pub fn shown_lines(
    alloc: Global,
    buffer: &Buffer,
    marks: &Marks,
    omitting: Option<&Rules>,
) -> Result<Vec<Entry>, Memory>
    ensures { IfOk result (λ entries. entries.items ≡
        shown (option_map (λ rules. rules.now) omitting.entry) marks.now.marks
        buffer.now.sections) }
{
    let mut omitter = omitter_of(omitting)?;
    let mut entries = Vec::new(alloc);
    let mut number = 2;
    for section in buffer.sections()? {
        number = push_section(alloc, &mut entries, section, number, marks, &mut omitter)?;
    }
    Ok(entries)
}
