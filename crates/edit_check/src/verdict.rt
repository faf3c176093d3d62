// The check of changes against a tree.
ghost use Rattle.std.specs.Prelude.{◌≡◌, ◌⊎◌, IfOk, IfErr, OnOk, None, Some};
ghost use Rattle.tree_core.specs.FileTree.{IsFile};
ghost use Rattle.tree_core.specs.History.{current_tree};
ghost use Rattle.tree_core.specs.Looks.{OnlyLooked, failed_in, faults_with};
ghost use Rattle.edit_words.specs.declared.fault.CheckFault.TheVariants as faults;
ghost use Rattle.edit_words.specs.Rows.{rows as rows_in};
ghost use Rattle.edit_words.specs.Sight.{sight_of};
ghost use Rattle.edit_words.specs.Refusals.{first_fault, refusal, staging, stale};
ghost use Rattle.edit_words.specs.Counting.{counts_of};
ghost use Rattle.edit_words.specs.WellFormed.{AreAsked, CanBeMade, LinksHaveFiles};
ghost use Rattle.edit_words.specs.Found.{IsClosed, IsCovered, IsFreeOr, IsLookAt, failed_call, sight_in};
ghost use Rattle.edit_rules.specs.Tables.{IsTable};
ghost use Rattle.edit_check.specs.Checks.{IsAnswer};
ghost use Rattle.edit_check.specs.StandFor.{StandsFor, changes_in, confirmed_in, counts_in};

use crate::Checked;
use dired_text::Memory;
use edit_looks::look_for_rows;
use edit_rules::{Table, counts, first_refusal, missing_by_path, modes_by_depth, victims_by_line};
use edit_words::{CheckFault, Findings, rows_of};
use std::alloc::Global;
use tree_core::{Changes, Confirmed, Items, Tree};

/// Whether changes can be made in a tree: they are well formed, what they replace is confirmed, and the bytes of their paths are
/// not too many. It changes nothing in the tree.
///
/// # Errors
/// The first of the faults in the order of [`CheckFault`], but that faults from `Reserved` to `PathTooLong` come by their lines.
/// Two looks that contradict each other, as they may where another program changes the tree, are `Stale` at the line for which
/// the second one was.
pub fn check<T: Tree>(
    alloc: Global,
    tree: &mut T,
    changes: Changes,
    confirmed: &Confirmed,
) -> Result<Checked, CheckFault>
    requires asked { AreAsked changes }
    requires files { T.Tells → LinksHaveFiles (IsFile (current_tree (T.history tree.old))) changes }

    ensures taken { T.Tells → OnOk result
        (CanBeMade (current_tree (T.history tree.old)) confirmed.now (rows_in changes)) }
    ensures refused { T.Tells → IfErr result
        (λ fault.
        IsFreeOr fault
        (refusal (sight_of (current_tree (T.history tree.old))) confirmed.now (rows_in changes))) }
    ensures answer { IfErr result (IsAnswer confirmed.now (rows_in changes)) }
    ensures keeps { IfOk result (λ c. (changes_in c ≡ changes) × (confirmed_in c ≡ confirmed.now)) }
    ensures stands_for { T.Tells → IfOk result
        (λ c. StandsFor c (current_tree (T.history tree.old))) }
    ensures counts { T.Tells → IfOk result (λ c. counts_in c ≡
        counts_of (sight_of (current_tree (T.history tree.old))) (rows_in changes)) }
    ensures looked { T.Tells → OnlyLooked (failed_in failed_call result)
        (T.history tree.old) (T.history tree.new) (T.fields tree.old) (T.fields tree.new)
        (T.before_failed tree.old) (T.before_failed tree.new) }
    ensures faults { T.faults tree.new ≡
        faults_with (failed_in failed_call result) (T.faults tree.old) }
    ensures unchanged { T.changes tree.new ≡ T.changes tree.old }
    ensures looks { IsLookAt (failed_in failed_call result) }
{
    let rows = rows_of(alloc, &changes)?;
    let findings = look_for_rows(alloc, tree, &rows)?;
    let table = Table::new(alloc, rows)?;
    decide(alloc, table, findings, changes, confirmed)
}

// Whether the changes can be made, by what was found. No line is stale, and nothing stands at the staging directory.
fn decide(
    alloc: Global,
    table: Table,
    findings: Findings,
    changes: Changes,
    confirmed: &Confirmed,
) -> Result<Checked, CheckFault>
    requires table { IsTable table }
    requires rows { table.rows.items ≡ rows_in changes }
    requires asked { AreAsked changes }
    requires covered { IsCovered findings table.rows.items }
    requires closed { IsClosed findings }
    requires unstaged { (sight_in findings).at staging ≡ None }
    requires shown { first_fault (stale (sight_in findings)) table.rows.items ≡ None }
    ensures refused { IfErr result
        (λ fault.
        (fault ≡ faults.Memory) ⊎ (refusal (sight_in findings) confirmed.now table.rows.items ≡
        Some fault)) }
    ensures keeps { IfOk result (λ c. (c.changes ≡ changes) × (c.confirmed ≡ confirmed.now) ×
        (c.findings ≡ findings)) }
    ensures taken { OnOk result (refusal (sight_in findings) confirmed.now table.rows.items ≡
        None) }
    ensures counts { IfOk result (λ c. c.counts ≡ counts_of (sight_in findings) table.rows.items) }
{
    if let Some(fault) = first_refusal(alloc, &table, &findings, confirmed)? {
        return Err(fault);
    }
    let counts = counts(alloc, &table, &findings)?;
    let victims = victims_by_line(alloc, &table, &findings)?;
    let missing = missing_by_path(alloc, &table, &findings)?;
    let modes = modes_by_depth(alloc, &table, &findings)?;
    Ok(Checked {
        alloc,
        changes,
        confirmed: copy_confirmed(alloc, confirmed)?,
        findings,
        table,
        counts,
        victims,
        missing,
        modes,
    })
}

// An equal list of confirmations.
fn copy_confirmed(alloc: Global, confirmed: &Confirmed) -> Result<Confirmed, Memory>
    ensures { IfOk result (λ c. c ≡ confirmed.now) }
{
    let mut paths = Vec::with_capacity(alloc, confirmed.paths.as_slice().len())?;
    for path in confirmed.paths.as_slice() {
        paths.push(path.copy()?)?;
    }
    Ok(Confirmed {
        all: confirmed.all,
        paths: Items::from_vec(paths),
    })
}
