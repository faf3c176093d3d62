// What a plan of changes needs.
ghost use Rattle.std.specs.Prelude.{◌≡◌, ◌++◌, IfOk, OnOk, List};
ghost use Rattle.std.specs.List.{flat_map};
ghost use Rattle.dired_text.specs.Paths.{Names};
ghost use Rattle.edit_words.specs.Found.{sight_in};
ghost use Rattle.edit_words.specs.Refusals.{missing_above as missing_above_of};
ghost use Rattle.edit_rules.specs.Plans.{AreMissing, victims_of};
ghost use Rattle.edit_rules.specs.Tables.{IsTable};

use crate::bytes::missing_above;
use crate::standing::standing;
use crate::table::Table;
use crate::victims::victim;
use dired_text::{Memory, Path};
use edit_words::{Findings, Row};
use std::alloc::Global;

/// What would be replaced, each with the line that replaces it, by line.
pub fn victims_by_line(
    alloc: Global,
    table: &Table,
    findings: &Findings,
) -> Result<Vec<(u32, Path)>, Memory>
    requires { IsTable table.now }
    ensures { IfOk result (λ v. v.items ≡ victims_of (sight_in findings.now) table.now.rows.items) }
{
    let mut victims = Vec::new(alloc);
    for row in &table.rows {
        if let Some(path) = victim(table, findings, row) {
            victims.push((row.line, path.copy()?))?;
        }
    }
    Ok(victims)
}

/// The directories that have to be made, each once, in the order of their paths.
pub fn missing_by_path(
    alloc: Global,
    table: &Table,
    findings: &Findings,
) -> Result<Vec<Path>, Memory>
    ensures { IfOk result (λ v. AreMissing (sight_in findings.now) table.now.rows.items v.items) }
{
    let mut missing = all_missing(alloc, &table.rows, findings)?;
    missing.sort_unstable();
    missing.dedup();
    Ok(missing)
}

// The directories that have to be made above each written path, line by line.
fn all_missing(alloc: Global, rows: &[Row], findings: &Findings) -> Result<Vec<Path>, Memory>
    ensures { IfOk result (λ v. v.items ≡
        flat_map (missing_above_of (sight_in findings.now)) rows.now) }
{
    let standing = standing(alloc, findings)?;
    let mut all = Vec::new(alloc);
    for row in rows {
        let missing = missing_above(alloc, findings, &standing, row)?;
        add_all(&mut all, missing)?;
    }
    Ok(all)
}

// Adds paths to others.
fn add_all(paths: &mut Vec<Path>, more: Vec<Path>) -> Result<(), Memory>
    ensures { OnOk result (paths.new.items ≡ paths.old.items ++ more.items) }
{
    for path in more {
        paths.push(path)?;
    }
    Ok(())
}
