// What is printed of a check and of a plan.
use crate::row::Shows;
use case_tables::{RowFault, push_field};
use commit_plan::Plan;
use commit_steps::Step;
use dired_text::{Memory, Path};
use edit_check::{CheckFault, Checked, Counts};
use std::alloc::Global;

/// What is printed of the answer of a check.
pub fn answer_text(
    alloc: Global,
    answer: &Result<Checked, CheckFault>,
) -> Result<String, RowFault> {
    match answer {
        Ok(checked) => Ok(counts_text(alloc, checked.counts())?),
        Err(fault) => {
            let mut text = String::from_str(alloc, "refused: ")?;
            push_fault(&mut text, fault)?;
            text.push_str("\n")?;
            Ok(text)
        }
    }
}

fn counts_text(alloc: Global, counts: Counts) -> Result<String, Memory> {
    let mut text = String::new(alloc);
    push_number(&mut text, "renamed", u64::from(counts.renamed))?;
    push_number(&mut text, " retargeted", u64::from(counts.retargeted))?;
    push_number(&mut text, " modes", u64::from(counts.modes))?;
    push_number(&mut text, " replaced", u64::from(counts.replaced))?;
    push_number(&mut text, " made", u64::from(counts.made))?;
    push_number(&mut text, " removed", u64::from(counts.removed))?;
    push_number(&mut text, " created", u64::from(counts.created))?;
    text.push_str("\n")?;
    Ok(text)
}

// The name of a fault, and what it carries. A failed call is want of memory, as this tree was told of no failing calls.
fn push_fault(text: &mut String, fault: &CheckFault) -> Result<(), RowFault> {
    match fault {
        CheckFault::Pending => Ok(text.push_str("Pending")?),
        CheckFault::Stale(line) => Ok(push_line(text, "Stale", *line)?),
        CheckFault::Reserved(line) => Ok(push_line(text, "Reserved", *line)?),
        CheckFault::TwoToOne(line, other) => Ok(push_two(text, "TwoToOne", *line, *other)?),
        CheckFault::ModeClash(line, other) => Ok(push_two(text, "ModeClash", *line, *other)?),
        CheckFault::MovedParent(line, other) => Ok(push_two(text, "MovedParent", *line, *other)?),
        CheckFault::ParentTaken(line, other) => Ok(push_two(text, "ParentTaken", *line, *other)?),
        CheckFault::PathTooLong(line) => Ok(push_line(text, "PathTooLong", *line)?),
        CheckFault::ParentNotDirectory(line, path) => {
            Ok(push_at(text, "ParentNotDirectory", *line, path)?)
        }
        CheckFault::TargetIsDirectory(line, path) => {
            Ok(push_at(text, "TargetIsDirectory", *line, path)?)
        }
        CheckFault::NotEmpty(line, path) => Ok(push_at(text, "NotEmpty", *line, path)?),
        CheckFault::Unconfirmed(line, path) => Ok(push_at(text, "Unconfirmed", *line, path)?),
        CheckFault::PathBytes(bytes) => Ok(push_number(text, "PathBytes", *bytes)?),
        CheckFault::TreeFault(_) | CheckFault::Memory => Err(RowFault::Memory),
    }
}

// A word and the number of a line behind it.
fn push_line(text: &mut String, word: &str, line: u32) -> Result<(), Memory> {
    push_number(text, word, u64::from(line))
}

// The same with the numbers of two lines.
fn push_two(text: &mut String, word: &str, line: u32, other: u32) -> Result<(), Memory> {
    push_line(text, word, line)?;
    push_line(text, "", other)
}

// The same with the number of a line and a path.
fn push_at(text: &mut String, word: &str, line: u32, path: &Path) -> Result<(), Memory> {
    push_line(text, word, line)?;
    push_path(text, path)
}

/// A word and a number behind it.
pub fn push_number(text: &mut String, word: &str, number: u64) -> Result<(), Memory> {
    let number = format!(in *text.allocator(); " {number}")?;
    text.push_str(word)?;
    text.push_str(number.as_str())?;
    Ok(())
}

// A path, behind a space.
fn push_path(text: &mut String, path: &Path) -> Result<(), Memory> {
    let shown = path.text()?;
    text.push_str(" ")?;
    push_field(text, shown.as_str().as_bytes())
}

/// Prints the steps of a plan, or how many there are of each kind.
pub fn push_plan(text: &mut String, plan: &Plan, shows: Shows) -> Result<(), Memory> {
    match shows {
        Shows::Numbers => push_numbers(text, plan.steps.as_slice()),
        Shows::Steps => {
            for step in plan.steps.as_slice() {
                push_step(text, step)?;
            }
            Ok(())
        }
    }
}

/// Prints a step.
pub fn push_step(text: &mut String, step: &Step) -> Result<(), Memory> {
    match step {
        Step::MakeDir(path) => {
            text.push_str("mkdir")?;
            push_path(text, path)?;
        }
        Step::Rename(from, to) => {
            text.push_str("rename")?;
            push_path(text, from)?;
            push_path(text, to)?;
        }
        Step::Mode(path, old, new) => {
            let modes = format!(in *text.allocator(); " {old:o} {new:o}")?;
            text.push_str("mode")?;
            push_path(text, path)?;
            text.push_str(modes.as_str())?;
        }
    }
    text.push_str("\n")?;
    Ok(())
}

fn push_numbers(text: &mut String, steps: &[Step]) -> Result<(), Memory> {
    let dirs = steps.iter().filter(|s| matches!(s, Step::MakeDir(_)));
    let renames = steps.iter().filter(|s| matches!(s, Step::Rename(..)));
    let modes = steps.iter().filter(|s| matches!(s, Step::Mode(..)));
    push_number(text, "mkdir", dirs.count() as u64)?;
    push_number(text, " rename", renames.count() as u64)?;
    push_number(text, " mode", modes.count() as u64)?;
    text.push_str("\n")?;
    Ok(())
}
