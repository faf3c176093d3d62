// The modes that changes change.
ghost use Rattle.std.specs.Prelude.{◌≡◌, IfOk, IsSorted, IsPermutation, None};
ghost use Rattle.edit_words.specs.Found.{sight_in};
ghost use Rattle.edit_words.specs.Refusals.{first_fault};
ghost use Rattle.edit_words.specs.Refusals as fault;
ghost use Rattle.edit_words.specs.Sight.{number_at};
ghost use Rattle.edit_rules.specs.Plans.{AreModes, deepest_first as deepest_first_cmp, is_line as is_line_of, mode_change_of, mode_changes, names_place as names_place_of};
ghost use Rattle.edit_rules.specs.Tables.{AreFileModes, IsTable};

use crate::claims::FileClaims;
use crate::places::place;
use crate::refusal::file_modes_of;
use crate::rules::file_number;
use crate::table::Table;
use dired_text::{Memory, Path};
use edit_words::{Findings, Row};
use std::alloc::Global;
use std::cmp::Ordering;

/// The modes that change: the new place of what has a new mode, its old mode and its new one. Places of more names come first, and
/// places of as many in the order of paths. Of the lines of one file the least names the place.
pub fn modes_by_depth(
    alloc: Global,
    table: &Table,
    findings: &Findings,
) -> Result<Vec<(Path, u16, u16)>, Memory>
    requires table { IsTable table.now }
    requires short { first_fault
        (fault.across (sight_in findings.now) table.now.rows.items) table.now.rows.items ≡ None }
    ensures { IfOk result (λ v. AreModes (sight_in findings.now) table.now.rows.items v.items) }
{
    let mut modes = modes_by_line(alloc, table, findings)?;
    deepen(&mut modes);
    Ok(modes)
}

// Puts the deepest places first.
fn deepen(modes: &mut Vec<(Path, u16, u16)>)
    ensures modes { IsPermutation modes.old.items modes.new.items }
    ensures sorted { IsSorted deepest_first_cmp modes.new.items }
{
    modes.sort_unstable_by(|a, b| deepest_first(a, b));
}

// How two new modes compare by their places.
fn deepest_first(a: &(Path, u16, u16), b: &(Path, u16, u16)) -> Ordering
    ensures { result ≡ deepest_first_cmp a.now b.now }
{
    let depths = b.0.names().len().cmp(&a.0.names().len());
    depths.then(a.0.cmp(&b.0))
}

// The modes that change, line by line.
fn modes_by_line(
    alloc: Global,
    table: &Table,
    findings: &Findings,
) -> Result<Vec<(Path, u16, u16)>, Memory>
    requires table { IsTable table.now }
    requires short { first_fault
        (fault.across (sight_in findings.now) table.now.rows.items) table.now.rows.items ≡ None }
    ensures { IfOk result (λ v. v.items ≡
        mode_changes (sight_in findings.now) table.now.rows.items) }
{
    let file_modes = file_modes_of(alloc, &table.rows, findings)?;
    let mut modes = Vec::new(alloc);
    for row in &table.rows {
        if let Some(change) = mode_change(alloc, table, findings, &file_modes, row)? {
            modes.push(change)?;
        }
    }
    Ok(modes)
}

// The mode that a row changes.
fn mode_change(
    alloc: Global,
    table: &Table,
    findings: &Findings,
    file_modes: &FileClaims,
    row: &Row,
) -> Result<Option<(Path, u16, u16)>, Memory>
    requires table { IsTable table.now }
    requires file_modes { AreFileModes
        (sight_in findings.now) file_modes.now.claims table.now.rows.items }
    requires short { fault.path_too_long table.now.rows.items row.now ≡ None }
    ensures { IfOk result (λ c. c ≡
        mode_change_of (sight_in findings.now) table.now.rows.items row.now) }
{
    let (Some(source), Some(was), Some(mode)) = (&row.source, &row.was, row.mode) else {
        return Ok(None);
    };
    if !names_place(table, findings, file_modes, row) {
        return Ok(None);
    }
    let names = place(alloc, table, source)?;
    match Path::join(alloc, &names)? {
        Some(place) => Ok(Some((place, was.mode, mode))),
        None => unreachable!(),
    }
}

// Whether no line before names a mode for the same file.
#[tactic(auto, using(crate::proofs::ClaimLemmas::first_claimed))]
fn names_place(table: &Table, findings: &Findings, file_modes: &FileClaims, row: &Row) -> bool
    requires { AreFileModes (sight_in findings.now) file_modes.now.claims table.now.rows.items }
    ensures { result ≡ names_place_of (sight_in findings.now) table.now.rows.items row.now
        (number_at (sight_in findings.now) row.now.source) }
{
    let _rows = &table.rows;
    match file_number(findings, &row.source) {
        None => true,
        Some(number) => is_line(row.line, file_modes.first(number)),
    }
}

// Whether there is a line and it is this one.
fn is_line(line: u32, other: Option<u32>) -> bool
    ensures { result ≡ is_line_of line other }
{
    match other {
        None => false,
        Some(other) => other == line,
    }
}
