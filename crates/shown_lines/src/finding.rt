// Whether the line of a path prints.
ghost use Rattle.std.specs.Prelude.{◌≡◌, IfOk};
ghost use Rattle.std.specs.List.{list_any};
ghost use Rattle.std.specs.Option.{option_map};
ghost use Rattle.dired_text.specs.Resolve.{resolved};
ghost use Rattle.shown_lines.specs.Chosen.{has_path};
ghost use Rattle.shown_lines.specs.Found.{has_line as has_line_of, is_in, is_path as is_path_of};
ghost use Rattle.shown_lines.specs.Shown.{shown};

use crate::omitting::{is_omitted, omitter_of};
use dired_text::{Memory, NameError, Path, resolve};
use listing_text::Line;
use mark_table::Marks;
use omit_rules::Rules;
use section_buffer::{Buffer, Section};
use std::alloc::Global;

// Whether a name has this path from a directory.
fn is_path(alloc: Global, dir: &Path, name: &str, path: &Path) -> Result<bool, Memory>
    ensures { IfOk result (λ is. is ≡ is_path_of path.now (resolved dir.now name.now)) }
{
    match resolve(alloc, dir, name) {
        Ok(found) => Ok(found == *path),
        Err(NameError::Memory) => Err(Memory),
        Err(_) => Ok(false),
    }
}

// Whether one of these lines of a directory has this path.
fn has_line(alloc: Global, dir: &Path, lines: &[Line], path: &Path) -> Result<bool, Memory>
    ensures { IfOk result (λ has. has ≡ has_line_of path.now dir.now lines.now) }
{
    for line in lines {
        if is_path(alloc, dir, line.name.as_str(), path)? {
            return Ok(true);
        }
    }
    Ok(false)
}

// Whether a section isn't hidden and has the line of this path.
fn shows(alloc: Global, section: &Section, path: &Path) -> Result<bool, Memory>
    ensures { IfOk result (λ shows. shows ≡ is_in path.now section.now) }
{
    if section.hidden {
        return Ok(false);
    }
    has_line(alloc, &section.dir, section.lines.as_slice(), path)
}

// Whether one of these sections does so.
fn any_shows(alloc: Global, sections: &[Section], path: &Path) -> Result<bool, Memory>
    ensures { IfOk result (λ has. has ≡ list_any (is_in path.now) sections.now) }
{
    for section in sections {
        if shows(alloc, section, path)? {
            return Ok(true);
        }
    }
    Ok(false)
}

/// Whether the line of a path is one of those that print.
///
/// # Errors
/// Want of memory.
pub fn is_shown(
    alloc: Global,
    buffer: &Buffer,
    marks: &Marks,
    omitting: Option<&Rules>,
    path: &Path,
) -> Result<bool, Memory>
    ensures { IfOk result (λ is_shown. is_shown ≡ has_path path.now
        (shown (option_map (λ rules. rules.now) omitting.entry) marks.now.marks
        buffer.now.sections)) }
{
    let mut omitter = omitter_of(omitting)?;
    if is_omitted(&mut omitter, marks, path) {
        return Ok(false);
    }
    let sections = buffer.sections()?;
    any_shows(alloc, &sections, path)
}
