// What would be replaced or removed.
ghost use Rattle.std.specs.Prelude.{◌≡◌, ◌||◌, IfOk};
ghost use Rattle.std.specs.BTreeSet.{contains};
ghost use Rattle.std.specs.Option.{option_map};
ghost use Rattle.dired_text.specs.Paths.{path_cmp};
ghost use Rattle.edit_words.specs.Found.{sight_in};
ghost use Rattle.edit_words.specs.Refusals as fault;
ghost use Rattle.edit_rules.specs.Tables.{IsTable, AreConfirmations};

use crate::table::{Table, add_path};
use dired_text::{Memory, Path};
use edit_words::{CheckFault, Findings, Row};
use std::alloc::Global;
use std::collections::BTreeSet;
use tree_core::Confirmed;

/// What was confirmed, found by its path.
#[derive(Drop)]
pub struct Confirmations {
    pub all: bool,
    pub paths: BTreeSet<Path>,
}

impl Confirmations {
    /// What is confirmed, found by its path.
    pub fn new(alloc: Global, confirmed: &Confirmed) -> Result<Self, Memory>
        ensures { IfOk result (λ c. AreConfirmations c confirmed.now) }
    {
        let mut paths = BTreeSet::new(alloc);
        for path in confirmed.paths.as_slice() {
            add_path(&mut paths, path)?;
        }
        Ok(Confirmations {
            all: confirmed.all,
            paths,
        })
    }

    /// Whether the path is confirmed.
    pub fn has(&self, path: &Path) -> bool
        ensures { result ≡ (self.now.all || contains path_cmp self.now.paths path.now) }
    {
        self.all || self.paths.contains(path)
    }
}

/// What a row would replace: what stands at its new path, where that is the source of no row.
pub fn victim<'a>(table: &Table, findings: &Findings, row: &'a Row) -> Option<&'a Path>
    requires { IsTable table.now }
    ensures { option_map (λ p. p.now) result ≡
        fault.victim_of (sight_in findings.now) table.now.rows.items row.now }
{
    match &row.to {
        Some(path) if findings.stands(path) && !table.is_source(path) => Some(path),
        _ => None,
    }
}

/// A directory would be replaced.
pub fn directory_replaced(
    table: &Table,
    findings: &Findings,
    row: &Row,
) -> Result<Option<CheckFault>, Memory>
    requires { IsTable table.now }
    ensures { IfOk result (λ f. f ≡
        fault.directory_replaced (sight_in findings.now) table.now.rows.items row.now) }
{
    match victim(table, findings, row) {
        Some(path) if findings.is_dir(path) => {
            Ok(Some(CheckFault::TargetIsDirectory(row.line, path.copy()?)))
        }
        _ => Ok(None),
    }
}

/// A directory with entries would be removed.
pub fn not_empty(findings: &Findings, row: &Row) -> Result<Option<CheckFault>, Memory>
    ensures { IfOk result (λ f. f ≡ fault.not_empty (sight_in findings.now) row.now) }
{
    match &row.source {
        Some(path) if row.removes && findings.is_dir(path) && !findings.is_empty(path) => {
            Ok(Some(CheckFault::NotEmpty(row.line, path.copy()?)))
        }
        _ => Ok(None),
    }
}

/// What would be replaced isn't confirmed.
pub fn unconfirmed(
    table: &Table,
    findings: &Findings,
    confirmations: &Confirmations,
    confirmed: &Confirmed,
    row: &Row,
) -> Result<Option<CheckFault>, Memory>
    requires table { IsTable table.now }
    requires confirmations { AreConfirmations confirmations.now confirmed.now }
    ensures { IfOk result (λ f. f ≡
        fault.unconfirmed (sight_in findings.now) confirmed.now table.now.rows.items row.now) }
{
    match victim(table, findings, row) {
        Some(path) if !confirmations.has(path) => {
            Ok(Some(CheckFault::Unconfirmed(row.line, path.copy()?)))
        }
        _ => Ok(None),
    }
}
