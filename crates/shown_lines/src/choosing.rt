// The marked lines and the chosen ones.
ghost use Rattle.std.specs.Prelude.{◌≡◌, IfOk, Some, length};
ghost use Rattle.std.specs.Option.{option_map};
ghost use Rattle.mark_table.specs.PathMarks.{has_mark, star};
ghost use Rattle.shown_lines.specs.Shown.{shown};
ghost use Rattle.shown_lines.specs.Chosen.{chosen_of, is_current as is_current_of, starred};

use crate::{Entry, shown_lines};
use dired_text::{Memory, Path};
use mark_table::Marks;
use omit_rules::Rules;
use section_buffer::Buffer;
use std::alloc::Global;

// The mark that `m` gives.
const STAR: u8 = b'*';

fn is_starred(marks: &Marks, path: &Path) -> bool
    ensures { result ≡ has_mark marks.now.marks (Some star) path.now }
{
    marks.get(path) == Some(STAR)
}

/// How many of the lines that print have the mark `*`.
///
/// # Errors
/// Want of memory.
pub fn count_marked(
    alloc: Global,
    buffer: &Buffer,
    marks: &Marks,
    omitting: Option<&Rules>,
) -> Result<u64, Memory>
    ensures { IfOk result (λ count. count ≡ length (starred marks.now.marks
        (shown (option_map (λ rules. rules.now) omitting.entry) marks.now.marks
        buffer.now.sections))) }
{
    let entries = shown_lines(alloc, buffer, marks, omitting)?;
    let count = entries
        .iter()
        .filter(|entry| is_starred(marks, &entry.path))
        .count();
    Ok(count as u64)
}

fn is_current(current: Option<&Path>, entry: &Entry) -> bool
    ensures { result ≡ is_current_of (option_map (λ path. path.now) current.entry) entry.now }
{
    match current {
        None => false,
        Some(path) => entry.path == *path,
    }
}

/// The chosen lines: those that print and have the mark `*`, in the order of the buffer. Where there is none, it is that of
/// the current path, if it prints.
///
/// # Errors
/// Want of memory.
pub fn chosen(
    alloc: Global,
    buffer: &Buffer,
    marks: &Marks,
    omitting: Option<&Rules>,
    current: Option<&Path>,
) -> Result<Vec<Entry>, Memory>
    ensures { IfOk result (λ entries. entries.items ≡
        chosen_of marks.now.marks (option_map (λ path. path.now) current.entry)
        (shown (option_map (λ rules. rules.now) omitting.entry) marks.now.marks
        buffer.now.sections)) }
{
    let entries = shown_lines(alloc, buffer, marks, omitting)?;
    choose(alloc, entries, marks, current)
}

// Those with `*`, or where there is none those of the current path.
fn choose(
    alloc: Global,
    entries: Vec<Entry>,
    marks: &Marks,
    current: Option<&Path>,
) -> Result<Vec<Entry>, Memory>
    ensures { IfOk result (λ chosen. chosen.items ≡
        chosen_of marks.now.marks (option_map (λ path. path.now) current.entry) entries.items) }
{
    let mut starred = Vec::new(alloc);
    let mut own = Vec::new(alloc);
    for entry in entries {
        if is_starred(marks, &entry.path) {
            starred.push(entry)?;
        } else if is_current(current, &entry) {
            own.push(entry)?;
        }
    }
    if starred.is_empty() {
        return Ok(own);
    }
    Ok(starred)
}
