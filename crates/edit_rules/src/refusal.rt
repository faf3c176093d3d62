// The first fault of all changes.
ghost use Rattle.std.specs.Prelude.{◌≡◌, ◌≤◌, IfOk, OnOk, None, Some, length, cond, ℕ, if◌then◌else◌};
ghost use Rattle.std.specs.BTreeMap.{get};
ghost use Rattle.std.specs.Ordering.{nat_cmp};
ghost use Rattle.std.specs.Option.{unwrap_or};
ghost use Rattle.edit_rules.specs.Claims.{claimed_by};
ghost use Rattle.edit_words.specs.Found.{sight_in};
ghost use Rattle.edit_words.specs.Refusals.{first_fault, staging, max_changed_bytes};
ghost use Rattle.edit_words.specs.Refusals as fault;
ghost use Rattle.edit_rules.specs.Tables.{AreConfirmations, AreFileModes, IsTable, names_mode};
ghost use Rattle.edit_words.specs.WellFormed.{LinesRise, max_changes};

use crate::bytes::changed_bytes;
use crate::claims::FileClaims;
use crate::rules::{across, file_number};
use crate::standing::standing;
use crate::table::Table;
use crate::victims::{Confirmations, directory_replaced, not_empty, unconfirmed};
use dired_text::Memory;
use edit_words::{CheckFault, Findings, Row};
use std::alloc::Global;
use tree_core::Confirmed;

/// The most bytes that the paths of changes may have.
pub const MAX_CHANGED_BYTES: u64 = 67_108_864;

/// The first fault of the changes, by what was found. No line is stale, and nothing stands at the staging directory.
pub fn first_refusal(
    alloc: Global,
    table: &Table,
    findings: &Findings,
    confirmed: &Confirmed,
) -> Result<Option<CheckFault>, Memory>
    requires table { IsTable table.now }
    requires lines { LinesRise table.now.rows.items }
    requires count { length table.now.rows.items ≤ max_changes }
    requires unstaged { (sight_in findings.now).at staging ≡ None }
    requires shown { first_fault (fault.stale (sight_in findings.now)) table.now.rows.items ≡ None }
    ensures { IfOk result (λ f. f ≡
        fault.refusal (sight_in findings.now) confirmed.now table.now.rows.items) }
{
    if let Some(fault) = first_across(alloc, table, findings)? {
        return Ok(Some(fault));
    }
    if let Some(fault) = first_replaced(table, findings)? {
        return Ok(Some(fault));
    }
    if let Some(fault) = first_full(table, findings)? {
        return Ok(Some(fault));
    }
    if let Some(fault) = first_unconfirmed(alloc, table, findings, confirmed)? {
        return Ok(Some(fault));
    }
    too_many_bytes(alloc, table, findings)
}

// The first row that can't stand together with another one, or with what stands in the tree.
fn first_across(
    alloc: Global,
    table: &Table,
    findings: &Findings,
) -> Result<Option<CheckFault>, Memory>
    requires table { IsTable table.now }
    requires lines { LinesRise table.now.rows.items }
    ensures { IfOk result (λ f. f ≡
        first_fault
        (fault.across (sight_in findings.now) table.now.rows.items) table.now.rows.items) }
{
    let standing = standing(alloc, findings)?;
    let file_modes = file_modes_of(alloc, &table.rows, findings)?;
    for row in &table.rows {
        if let Some(fault) = across(alloc, table, findings, &standing, &file_modes, row)? {
            return Ok(Some(fault));
        }
    }
    Ok(None)
}

// The first row that would replace a directory.
fn first_replaced(table: &Table, findings: &Findings) -> Result<Option<CheckFault>, Memory>
    requires { IsTable table.now }
    ensures { IfOk result (λ f. f ≡
        first_fault
        (fault.directory_replaced (sight_in findings.now) table.now.rows.items)
        table.now.rows.items) }
{
    for row in &table.rows {
        if let Some(fault) = directory_replaced(table, findings, row)? {
            return Ok(Some(fault));
        }
    }
    Ok(None)
}

// The first row that would remove a directory with entries.
fn first_full(table: &Table, findings: &Findings) -> Result<Option<CheckFault>, Memory>
    ensures { IfOk result (λ f. f ≡
        first_fault (fault.not_empty (sight_in findings.now)) table.now.rows.items) }
{
    for row in &table.rows {
        if let Some(fault) = not_empty(findings, row)? {
            return Ok(Some(fault));
        }
    }
    Ok(None)
}

// The first row that would replace what isn't confirmed.
fn first_unconfirmed(
    alloc: Global,
    table: &Table,
    findings: &Findings,
    confirmed: &Confirmed,
) -> Result<Option<CheckFault>, Memory>
    requires { IsTable table.now }
    ensures { IfOk result (λ f. f ≡
        first_fault
        (fault.unconfirmed (sight_in findings.now) confirmed.now table.now.rows.items)
        table.now.rows.items) }
{
    let confirmations = Confirmations::new(alloc, confirmed)?;
    for row in &table.rows {
        if let Some(fault) = unconfirmed(table, findings, &confirmations, confirmed, row)? {
            return Ok(Some(fault));
        }
    }
    Ok(None)
}

// The paths have too many bytes.
fn too_many_bytes(
    alloc: Global,
    table: &Table,
    findings: &Findings,
) -> Result<Option<CheckFault>, Memory>
    requires table { IsTable table.now }
    requires count { length table.now.rows.items ≤ max_changes }
    requires short { first_fault
        (fault.across (sight_in findings.now) table.now.rows.items) table.now.rows.items ≡ None }
    ensures { IfOk result (λ f. f ≡
        fault.too_many_bytes (fault.changed_bytes (sight_in findings.now) table.now.rows.items)) }
{
    let bytes = changed_bytes(alloc, table, findings)?;
    if bytes > MAX_CHANGED_BYTES {
        return Ok(Some(CheckFault::PathBytes(bytes)));
    }
    Ok(None)
}

/// The modes that lines name for each file.
pub fn file_modes_of(alloc: Global, rows: &[Row], findings: &Findings) -> Result<FileClaims, Memory>
    ensures { IfOk result (λ modes. AreFileModes (sight_in findings.now) modes.claims rows.now) }
{
    let mut modes = FileClaims::new(alloc);
    for row in rows {
        note_mode(&mut modes, findings, row)?;
    }
    Ok(modes)
}

// Notes the mode that a row names for a file.
fn note_mode(modes: &mut FileClaims, findings: &Findings, row: &Row) -> Result<(), Memory>
    ensures { OnOk result ((n : ℕ) → get nat_cmp modes.new.claims n ≡
        (if names_mode (sight_in findings.now) n row.now
        then Some
        (claimed_by (unwrap_or row.now.mode 0) row.now.line (get nat_cmp modes.old.claims n))
        else get nat_cmp modes.old.claims n)) }
{
    match (file_number(findings, &row.source), row.mode) {
        (Some(number), Some(mode)) => modes.note(number, mode as u32, row.line),
        _ => Ok(()),
    }
}
