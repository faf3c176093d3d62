// The lines that are omitted.
ghost use Rattle.std.specs.Prelude.{◌≡◌, ◌++◌, IfOk, OnOk};
ghost use Rattle.std.specs.Option.{option_map};
ghost use Rattle.mark_table.specs.PathMarks.{is_among};
ghost use Rattle.omit_rules.specs.Omitters.{rules_of};
ghost use Rattle.section_buffer.specs.Printed.{printed};
ghost use Rattle.shown_lines.specs.Omitted.{omitted_in, omitted_lines, omitted_of};
ghost use Rattle.shown_lines.specs.Shown.{omits};

use crate::omitting::{Outcome, decide, omitter_of};
use dired_text::{Memory, Path};
use listing_text::Line;
use mark_table::Marks;
use omit_rules::{Omitter, Rules};
use section_buffer::{Buffer, Section};
use std::alloc::Global;

// Adds the paths of the lines of a directory that are omitted.
fn push_lines(
    alloc: Global,
    paths: &mut Vec<Path>,
    dir: &Path,
    lines: Vec<Line>,
    marks: &Marks,
    omitter: &mut Option<Omitter<'_>>,
) -> Result<(), Memory>
    ensures paths { OnOk result (paths.new.items ≡ paths.old.items ++ omitted_lines
        (option_map rules_of omitter.old) marks.now.marks dir.now lines.items) }
    ensures same { option_map rules_of omitter.new ≡ option_map rules_of omitter.old }
{
    for line in lines {
        match decide(alloc, dir, &line, marks, omitter)? {
            Outcome::Omitted(path) => paths.push(path)?,
            Outcome::Shown(_) => {}
            Outcome::Unnamed => {}
        }
    }
    Ok(())
}

// Adds the paths of a section's omitted lines.
fn push_section(
    alloc: Global,
    paths: &mut Vec<Path>,
    section: Section,
    marks: &Marks,
    omitter: &mut Option<Omitter<'_>>,
) -> Result<(), Memory>
    ensures paths { OnOk result (paths.new.items ≡ paths.old.items ++
        omitted_in (option_map rules_of omitter.old) marks.now.marks section) }
    ensures same { option_map rules_of omitter.new ≡ option_map rules_of omitter.old }
{
    let Section { dir, hidden, lines } = section;
    if hidden {
        return Ok(());
    }
    push_lines(alloc, paths, &dir, lines.into_vec(), marks, omitter)
}

// The paths of the omitted lines of these sections.
fn paths_of(
    alloc: Global,
    sections: Vec<Section>,
    marks: &Marks,
    omitting: Option<&Rules>,
) -> Result<Vec<Path>, Memory>
    ensures { IfOk result (λ paths. paths.items ≡ omitted_of
        (option_map (λ rules. rules.now) omitting.entry) marks.now.marks sections.items) }
{
    let mut omitter = omitter_of(omitting)?;
    let mut paths = Vec::new(alloc);
    for section in sections {
        push_section(alloc, &mut paths, section, marks, &mut omitter)?;
    }
    Ok(paths)
}

/// The paths of the lines that are omitted, for [`Buffer::print`]: what it then prints are the lines that aren't.
///
/// # Errors
/// Want of memory.
pub fn omitted_paths(
    alloc: Global,
    buffer: &Buffer,
    marks: &Marks,
    omitting: Option<&Rules>,
) -> Result<Vec<Path>, Memory>
    ensures paths { IfOk result (λ paths. paths.items ≡
        omitted_of (option_map (λ rules. rules.now) omitting.entry) marks.now.marks
        buffer.now.sections) }
    ensures printed { IfOk result (λ paths.
        printed marks.now.marks (λ p. is_among p paths.items) buffer.now.sections ≡
        printed marks.now.marks
        (omits (option_map (λ rules. rules.now) omitting.entry) marks.now.marks)
        buffer.now.sections) }
{
    let sections = buffer.sections()?;
    paths_of(alloc, sections, marks, omitting)
}
