// Counts of changes.
ghost use Rattle.std.specs.Prelude.{◌≡◌, ◌≤◌, ◌&&◌, ◌++◌, IfOk, OnOk, List, count_by, is_some, length, not};
ghost use Rattle.std.specs.List.{flat_map};
ghost use Rattle.dired_text.specs.Paths.{Names};
ghost use Rattle.edit_words.specs.Counting.{counts_of, different};
ghost use Rattle.edit_rules.specs.PathSets.{HasPaths};
ghost use Rattle.edit_words.specs.Found.{sight_in};
ghost use Rattle.edit_words.specs.Refusals as fault;
ghost use Rattle.edit_rules.specs.Tables.{IsTable};
ghost use Rattle.edit_words.specs.WellFormed.{max_changes};

use crate::bytes::missing_above;
use crate::standing::standing;
use crate::table::Table;
use crate::victims::victim;
use dired_text::{Memory, Path};
use edit_words::{Counts, Findings, Row};
use std::alloc::Global;
use std::collections::BTreeSet;

/// How much the changes change.
pub fn counts(alloc: Global, table: &Table, findings: &Findings) -> Result<Counts, Memory>
    requires table { IsTable table.now }
    requires count { length table.now.rows.items ≤ max_changes }
    ensures { IfOk result (λ c. c ≡ counts_of (sight_in findings.now) table.now.rows.items) }
{
    let rows = table.rows.as_slice();
    Ok(Counts {
        renamed: renamed(rows),
        retargeted: retargeted(rows),
        modes: modes(rows),
        replaced: replaced(table, findings),
        made: made(alloc, rows, findings)?,
        removed: removed(rows),
        created: created(rows),
    })
}

// How many edits have a new path.
fn renamed(rows: &[Row]) -> u32
    requires { length rows.now ≤ max_changes }
    ensures { result ≡ count_by (λ (r : Row). is_some r.source && is_some r.to) rows.now }
{
    rows.iter()
        .filter(|row| row.source.is_some() && row.to.is_some())
        .count() as u32
}

// How many links have a new target.
fn retargeted(rows: &[Row]) -> u32
    requires { length rows.now ≤ max_changes }
    ensures { result ≡ count_by (λ (r : Row). r.retargets) rows.now }
{
    rows.iter().filter(|row| row.retargets).count() as u32
}

// How many edits have a new mode.
fn modes(rows: &[Row]) -> u32
    requires { length rows.now ≤ max_changes }
    ensures { result ≡ count_by (λ (r : Row). is_some r.mode) rows.now }
{
    rows.iter().filter(|row| row.mode.is_some()).count() as u32
}

// How many entries are replaced.
fn replaced(table: &Table, findings: &Findings) -> u32
    requires table { IsTable table.now }
    requires count { length table.now.rows.items ≤ max_changes }
    ensures { result ≡ count_by
        (λ (r : Row). is_some (fault.victim_of (sight_in findings.now) table.now.rows.items r))
        table.now.rows.items }
{
    let mut count = 0;
    for row in &table.rows {
        if victim(table, findings, row).is_some() {
            count += 1;
        }
    }
    count
}

// How many removals there are.
fn removed(rows: &[Row]) -> u32
    requires { length rows.now ≤ max_changes }
    ensures { result ≡ count_by (λ (r : Row). r.removes) rows.now }
{
    rows.iter().filter(|row| row.removes).count() as u32
}

// How many creations there are.
fn created(rows: &[Row]) -> u32
    requires { length rows.now ≤ max_changes }
    ensures { result ≡ count_by (λ (r : Row). not (is_some r.source)) rows.now }
{
    rows.iter().filter(|row| row.source.is_none()).count() as u32
}

// How many directories are made above new paths.
fn made(alloc: Global, rows: &[Row], findings: &Findings) -> Result<u32, Memory>
    requires { length rows.now ≤ max_changes }
    ensures { IfOk result (λ n. n ≡
        different (flat_map (fault.missing_above (sight_in findings.now)) rows.now)) }
{
    let standing = standing(alloc, findings)?;
    let mut paths = BTreeSet::new(alloc);
    for row in rows {
        let missing = missing_above(alloc, findings, &standing, row)?;
        add_paths(&mut paths, &missing)?;
    }
    Ok(paths.len() as u32)
}

// Puts paths into a set.
fn add_paths(paths: &mut BTreeSet<Path>, more: &[Path]) -> Result<(), Memory>
    ensures { OnOk result ((ps : List Names) → HasPaths paths.old ps →
        HasPaths paths.new (ps ++ more.now)) }
{
    for path in more {
        paths.insert(path.copy()?)?;
    }
    Ok(())
}
