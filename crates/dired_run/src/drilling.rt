// A drill, in a tree of its own.
ghost use Rattle.std.specs.Prelude.{◌≡◌, ◌≤◌, IfErr, IfOk};
ghost use Rattle.std.specs.String.{string_bytes};
ghost use Rattle.run_status.specs.declared.status.Status.TheVariants.{Memory as memory};
ghost use Rattle.dired_run.specs.Drills.{IsCounted, IsDrillText, drill_text};
ghost use Rattle.dired_run.specs.Reports.{bytes_of_output};

use crate::Status;
use crate::output::Output;
use dired_text::{Bytes, Memory};
use drill_memory::make_drill;
use drill_run::{DrillCounts, drill_commit};
use std::alloc::Global;

/// Commits the edits of a drill of so many directories in a tree that is made in memory, and answers the line of what was done.
///
/// # Errors
/// Want of memory.
pub fn drill(alloc: Global, groups: u32) -> Result<Output, Status>
    requires some { 1 ≤ groups }
    requires few { groups ≤ 20000 }
    ensures line { IfOk result (λ output. IsDrillText groups (bytes_of_output output)) }
    ensures end { IfErr result (λ status. status ≡ memory) }
{
    match drilled(alloc, groups) {
        Ok(text) => Ok(Output::Lines(text)),
        Err(_) => Err(Status::Memory),
    }
}

// The line of a drill.
fn drilled(alloc: Global, groups: u32) -> Result<Bytes, Memory>
    requires some { 1 ≤ groups }
    requires few { groups ≤ 20000 }
    ensures { IfOk result (λ text. IsDrillText groups text) }
{
    let counts = counts(alloc, groups)?;
    line(alloc, groups, counts)
}

// What a drill counts. The calls of its tree fail for want of memory alone, so no other end needs a status.
fn counts(alloc: Global, groups: u32) -> Result<DrillCounts, Memory>
    requires some { 1 ≤ groups }
    requires few { groups ≤ 20000 }
    ensures { IfOk result (λ counts. IsCounted groups counts) }
{
    let mut tree = make_drill(alloc, groups)?;
    match drill_commit(alloc, &mut tree, groups) {
        Ok(counts) => Ok(counts),
        Err(_) => Err(Memory),
    }
}

// The line of these counts, as bytes.
fn line(alloc: Global, groups: u32, counts: DrillCounts) -> Result<Bytes, Memory>
    ensures { IfOk result (λ text. text ≡ drill_text groups counts) }
{
    let text = line_text(alloc, groups, counts)?;
    Ok(Bytes::from_vec(text.into_bytes()))
}

// The line of these counts.
fn line_text(alloc: Global, groups: u32, counts: DrillCounts) -> Result<String, Memory>
    ensures { IfOk result (λ text. string_bytes text ≡ drill_text groups counts) }
{
    let DrillCounts {
        entries,
        edits,
        cycles,
        replaced,
        temporaries,
        steps,
        left,
    } = counts;
    let text = format!(in alloc;
        "drill {groups}: entries {entries}, edits {edits}, cycles {cycles}, replaced {replaced}, temporaries {temporaries}, steps {steps}, left {left}\n"
    )?;
    Ok(text)
}
