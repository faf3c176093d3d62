// The looks that a check of changes takes.
ghost use Rattle.std.specs.Prelude.{◌≡◌, All, IfOk, IfErr, OnOk, Some, None, false, is_some};
ghost use Rattle.std.specs.BTreeMap.{get};
ghost use Rattle.dired_text.specs.Paths.{Names, path_cmp};
ghost use Rattle.tree_core.specs.History.{current_tree};
ghost use Rattle.tree_core.specs.Looks.{OnlyLooked, failed_in, faults_with};
ghost use Rattle.edit_words.specs.declared.fault.CheckFault.TheVariants as fault;
ghost use Rattle.edit_words.specs.Place.{IsAbove};
ghost use Rattle.edit_words.specs.Sight.{Sight, sight_of};
ghost use Rattle.edit_words.specs.Refusals.{staging, first_fault, fault_if, is_as_shown as is_as_shown_of, is_stale_at, stale, ill_formed};
ghost use Rattle.edit_words.specs.Found.{sight_in, HasFindings, HasGrown, IsClosed, IsCovered, IsFreeOr, IsLookAt, IsSeen, failed_call};
ghost use Rattle.edit_looks.specs.Looks.{failed_look, contradicts, IsLookEnd, IsRemovedSeen, IsSeenAsTree, IsShownIn, IsStaleIn, IsToSeen};

use crate::look::SeeEnd;
use crate::see::{see, see_empty};
use dired_text::{Failed, Memory, Name, Path};
use edit_words::{CheckFault, Findings, Row, Seen};
use std::alloc::Global;
use tree_core::{CallName, Kind, Shown, Tree};

/// The name of the staging directory of a commit.
const STAGING: &str = ".wdired-commit";

/// What looks find of all that a check of these rows asks for.
///
/// # Errors
/// `Pending` and `Stale` where a row can't be made, `TreeFault` with the look that failed, and `Memory`.
pub fn look_for_rows<T: Tree>(
    alloc: Global,
    tree: &mut T,
    rows: &[Row],
) -> Result<Findings, CheckFault>
    ensures covered { IfOk result (λ f. IsCovered f rows.now) }
    ensures unstaged { IfOk result (λ f. (sight_in f).at staging ≡ None) }
    ensures shown { IfOk result (λ f. first_fault (stale (sight_in f)) rows.now ≡ None) }
    ensures closed { IfOk result IsClosed }
    ensures found { T.Tells → IfOk result
        (λ f. HasFindings f (sight_of (current_tree (T.history tree.old)))) }
    ensures refused { T.Tells → IfErr result
        (λ fault.
        IsFreeOr fault (ill_formed (sight_of (current_tree (T.history tree.old))) rows.now)) }
    ensures end { IfErr result (IsLookEnd rows.now) }
    ensures looked { T.Tells → OnlyLooked (failed_in failed_call result)
        (T.history tree.old) (T.history tree.new) (T.fields tree.old) (T.fields tree.new)
        (T.before_failed tree.old) (T.before_failed tree.new) }
    ensures faults { T.faults tree.new ≡
        faults_with (failed_in failed_call result) (T.faults tree.old) }
    ensures unchanged { T.changes tree.new ≡ T.changes tree.old }
    ensures looks { IsLookAt (failed_in failed_call result) }
{
    let mut findings = see_staging(alloc, tree)?;
    see_sources(alloc, tree, &mut findings, rows)?;
    see_new_paths(alloc, tree, &mut findings, rows)?;
    see_removed(tree, &mut findings, rows)?;
    Ok(findings)
}

// Looks at the staging directory alone, where nothing may stand.
fn see_staging<T: Tree>(alloc: Global, tree: &mut T) -> Result<Findings, CheckFault>
    ensures unstaged { IfOk result (λ f. get path_cmp f.found staging ≡ Some None) }
    ensures closed { IfOk result IsClosed }
    ensures told { T.Tells → IfOk result
        (λ f. HasFindings f (sight_of (current_tree (T.history tree.old)))) }
    ensures refused { T.Tells → IfErr result
        (λ e. IsFreeOr e
        (fault_if
        (is_some ((sight_of (current_tree (T.history tree.old))).at staging)) fault.Pending)) }
    ensures end { IfErr result (λ e. IsFreeOr e (Some fault.Pending)) }
    ensures looked { T.Tells → OnlyLooked (failed_in failed_call result)
        (T.history tree.old) (T.history tree.new) (T.fields tree.old) (T.fields tree.new)
        (T.before_failed tree.old) (T.before_failed tree.new) }
    ensures faults { T.faults tree.new ≡
        faults_with (failed_in failed_call result) (T.faults tree.old) }
    ensures unchanged { T.changes tree.new ≡ T.changes tree.old }
    ensures looks { IsLookAt (failed_in failed_call result) }
{
    let Ok(path) = staging_path(alloc) else {
        return Err(CheckFault::Memory);
    };
    match tree.kind(&path) {
        Err(Failed) => Err(CheckFault::TreeFault(CallName::Kind)),
        Ok(Some(_)) => Err(CheckFault::Pending),
        Ok(None) => match unstaged(alloc, &path) {
            Ok(findings) => Ok(findings),
            Err(Memory) => Err(CheckFault::Memory),
        },
    }
}

// The path of the staging directory.
fn staging_path(alloc: Global) -> Result<Path, Memory>
    ensures { IfOk result (λ p. p ≡ staging) }
{
    let Some(name) = Name::new(alloc, STAGING)? else {
        unreachable!()
    };
    let names = [name];
    match Path::join(alloc, &names)? {
        Some(path) => Ok(path),
        None => unreachable!(),
    }
}

// The findings of the staging directory alone, where nothing stands.
fn unstaged(alloc: Global, path: &Path) -> Result<Findings, Memory>
    requires staging { path.now ≡ staging }
    ensures unstaged { IfOk result (λ f. get path_cmp f.found staging ≡ Some None) }
    ensures closed { IfOk result IsClosed }
    ensures told { IfOk result (λ f. (s : Sight) → IsSeenAsTree s → s.at staging ≡ None →
        HasFindings f s) }
{
    let mut findings = Findings::new(alloc);
    findings.note(path, None)?;
    Ok(findings)
}

// Sees each source, which has to be as its row shows it.
fn see_sources<T: Tree>(
    alloc: Global,
    tree: &mut T,
    findings: &mut Findings,
    rows: &[Row],
) -> Result<(), CheckFault>
    requires closed { IsClosed findings.old }
    requires told { T.Tells → HasFindings findings.old
        (sight_of (current_tree (T.history tree.old))) }
    ensures shown { OnOk result (All (IsShownIn findings.new) rows.now) }
    ensures grown { HasGrown findings.old findings.new }
    ensures closed { IsClosed findings.new }
    ensures told { T.Tells → HasFindings findings.new
        (sight_of (current_tree (T.history tree.old))) }
    ensures refused { T.Tells → IfErr result
        (λ fault.
        IsFreeOr fault
        (first_fault (stale (sight_of (current_tree (T.history tree.old)))) rows.now)) }
    ensures line { IfErr result (IsStaleIn rows.now) }
    ensures looked { T.Tells → OnlyLooked (failed_in failed_call result)
        (T.history tree.old) (T.history tree.new) (T.fields tree.old) (T.fields tree.new)
        (T.before_failed tree.old) (T.before_failed tree.new) }
    ensures faults { T.faults tree.new ≡
        faults_with (failed_in failed_call result) (T.faults tree.old) }
    ensures unchanged { T.changes tree.new ≡ T.changes tree.old }
    ensures looks { IsLookAt (failed_in failed_call result) }
{
    for row in rows {
        see_source(alloc, tree, findings, row)?;
    }
    Ok(())
}

// Sees the source of a row, which has to be as the row shows it.
fn see_source<T: Tree>(
    alloc: Global,
    tree: &mut T,
    findings: &mut Findings,
    row: &Row,
) -> Result<(), CheckFault>
    requires closed { IsClosed findings.old }
    requires told { T.Tells → HasFindings findings.old
        (sight_of (current_tree (T.history tree.old))) }
    ensures shown { OnOk result (IsShownIn findings.new row.now) }
    ensures grown { HasGrown findings.old findings.new }
    ensures closed { IsClosed findings.new }
    ensures told { T.Tells → HasFindings findings.new
        (sight_of (current_tree (T.history tree.old))) }
    ensures refused { T.Tells → IfErr result
        (λ fault. IsFreeOr fault (stale (sight_of (current_tree (T.history tree.old))) row.now)) }
    ensures line { IfErr result (λ e. IsFreeOr e (Some (fault.Stale row.now.line))) }
    ensures looked { T.Tells → OnlyLooked (failed_in failed_call result)
        (T.history tree.old) (T.history tree.new) (T.fields tree.old) (T.fields tree.new)
        (T.before_failed tree.old) (T.before_failed tree.new) }
    ensures faults { T.faults tree.new ≡
        faults_with (failed_in failed_call result) (T.faults tree.old) }
    ensures unchanged { T.changes tree.new ≡ T.changes tree.old }
    ensures looks { IsLookAt (failed_in failed_call result) }
{
    let Some(source) = &row.source else {
        return Ok(());
    };
    see_for(alloc, tree, findings, row.line, source)?;
    if is_stale(findings, source, &row.was) {
        return Err(CheckFault::Stale(row.line));
    }
    Ok(())
}

// Sees each new path.
fn see_new_paths<T: Tree>(
    alloc: Global,
    tree: &mut T,
    findings: &mut Findings,
    rows: &[Row],
) -> Result<(), CheckFault>
    requires closed { IsClosed findings.old }
    requires told { T.Tells → HasFindings findings.old
        (sight_of (current_tree (T.history tree.old))) }
    ensures seen { OnOk result (All (IsToSeen findings.new) rows.now) }
    ensures grown { HasGrown findings.old findings.new }
    ensures closed { IsClosed findings.new }
    ensures told { T.Tells → HasFindings findings.new
        (sight_of (current_tree (T.history tree.old))) }
    ensures refused { T.Tells → IfErr result (λ fault. IsFreeOr fault None) }
    ensures line { IfErr result (IsStaleIn rows.now) }
    ensures looked { T.Tells → OnlyLooked (failed_in failed_call result)
        (T.history tree.old) (T.history tree.new) (T.fields tree.old) (T.fields tree.new)
        (T.before_failed tree.old) (T.before_failed tree.new) }
    ensures faults { T.faults tree.new ≡
        faults_with (failed_in failed_call result) (T.faults tree.old) }
    ensures unchanged { T.changes tree.new ≡ T.changes tree.old }
    ensures looks { IsLookAt (failed_in failed_call result) }
{
    for row in rows {
        see_new_path(alloc, tree, findings, row)?;
    }
    Ok(())
}

// Sees the new path of a row.
fn see_new_path<T: Tree>(
    alloc: Global,
    tree: &mut T,
    findings: &mut Findings,
    row: &Row,
) -> Result<(), CheckFault>
    requires closed { IsClosed findings.old }
    requires told { T.Tells → HasFindings findings.old
        (sight_of (current_tree (T.history tree.old))) }
    ensures seen { OnOk result (IsToSeen findings.new row.now) }
    ensures grown { HasGrown findings.old findings.new }
    ensures closed { IsClosed findings.new }
    ensures told { T.Tells → HasFindings findings.new
        (sight_of (current_tree (T.history tree.old))) }
    ensures refused { T.Tells → IfErr result (λ fault. IsFreeOr fault None) }
    ensures line { IfErr result (λ e. IsFreeOr e (Some (fault.Stale row.now.line))) }
    ensures looked { T.Tells → OnlyLooked (failed_in failed_call result)
        (T.history tree.old) (T.history tree.new) (T.fields tree.old) (T.fields tree.new)
        (T.before_failed tree.old) (T.before_failed tree.new) }
    ensures faults { T.faults tree.new ≡
        faults_with (failed_in failed_call result) (T.faults tree.old) }
    ensures unchanged { T.changes tree.new ≡ T.changes tree.old }
    ensures looks { IsLookAt (failed_in failed_call result) }
{
    match &row.to {
        None => Ok(()),
        Some(to) => see_for(alloc, tree, findings, row.line, to),
    }
}

// Sees a path, and all above it, for a row of this line.
fn see_for<T: Tree>(
    alloc: Global,
    tree: &mut T,
    findings: &mut Findings,
    line: u32,
    path: &Path,
) -> Result<(), CheckFault>
    requires closed { IsClosed findings.old }
    requires told { T.Tells → HasFindings findings.old
        (sight_of (current_tree (T.history tree.old))) }
    ensures seen { OnOk result (IsSeen findings.new path.now) }
    ensures above { OnOk result ((u : Names) → IsAbove u path.now → IsSeen findings.new u) }
    ensures grown { HasGrown findings.old findings.new }
    ensures closed { IsClosed findings.new }
    ensures told { T.Tells → HasFindings findings.new
        (sight_of (current_tree (T.history tree.old))) }
    ensures refused { T.Tells → IfErr result (λ fault. IsFreeOr fault None) }
    ensures line { IfErr result (λ e. IsFreeOr e (Some (fault.Stale line))) }
    ensures looked { T.Tells → OnlyLooked (failed_in failed_call result)
        (T.history tree.old) (T.history tree.new) (T.fields tree.old) (T.fields tree.new)
        (T.before_failed tree.old) (T.before_failed tree.new) }
    ensures faults { T.faults tree.new ≡
        faults_with (failed_in failed_call result) (T.faults tree.old) }
    ensures unchanged { T.changes tree.new ≡ T.changes tree.old }
    ensures looks { IsLookAt (failed_in failed_call result) }
{
    match see(alloc, tree, findings, path) {
        Ok(()) => Ok(()),
        Err(end) => Err(fault_at(line, end)),
    }
}

// Sees whether the directories that are to be removed are empty.
fn see_removed<T: Tree>(
    tree: &mut T,
    findings: &mut Findings,
    rows: &[Row],
) -> Result<(), CheckFault>
    requires closed { IsClosed findings.old }
    requires told { T.Tells → HasFindings findings.old
        (sight_of (current_tree (T.history tree.old))) }
    ensures asked { OnOk result (All (IsRemovedSeen findings.new) rows.now) }
    ensures grown { HasGrown findings.old findings.new }
    ensures closed { IsClosed findings.new }
    ensures told { T.Tells → HasFindings findings.new
        (sight_of (current_tree (T.history tree.old))) }
    ensures refused { IfErr result (λ fault. IsFreeOr fault None) }
    ensures looked { T.Tells → OnlyLooked (failed_in failed_call result)
        (T.history tree.old) (T.history tree.new) (T.fields tree.old) (T.fields tree.new)
        (T.before_failed tree.old) (T.before_failed tree.new) }
    ensures faults { T.faults tree.new ≡
        faults_with (failed_in failed_call result) (T.faults tree.old) }
    ensures unchanged { T.changes tree.new ≡ T.changes tree.old }
    ensures looks { IsLookAt (failed_in failed_call result) }
{
    for row in rows {
        see_removed_row(tree, findings, row)?;
    }
    Ok(())
}

// Sees whether a directory that a row removes is empty.
fn see_removed_row<T: Tree>(
    tree: &mut T,
    findings: &mut Findings,
    row: &Row,
) -> Result<(), CheckFault>
    requires closed { IsClosed findings.old }
    requires told { T.Tells → HasFindings findings.old
        (sight_of (current_tree (T.history tree.old))) }
    ensures asked { OnOk result (IsRemovedSeen findings.new row.now) }
    ensures grown { HasGrown findings.old findings.new }
    ensures found { findings.new.found ≡ findings.old.found }
    ensures closed { IsClosed findings.new }
    ensures told { T.Tells → HasFindings findings.new
        (sight_of (current_tree (T.history tree.old))) }
    ensures refused { IfErr result (λ fault. IsFreeOr fault None) }
    ensures looked { T.Tells → OnlyLooked (failed_in failed_call result)
        (T.history tree.old) (T.history tree.new) (T.fields tree.old) (T.fields tree.new)
        (T.before_failed tree.old) (T.before_failed tree.new) }
    ensures faults { T.faults tree.new ≡
        faults_with (failed_in failed_call result) (T.faults tree.old) }
    ensures unchanged { T.changes tree.new ≡ T.changes tree.old }
    ensures looks { IsLookAt (failed_in failed_call result) }
{
    if !row.removes {
        return Ok(());
    }
    let Some(source) = &row.source else {
        return Ok(());
    };
    match see_empty(tree, findings, source) {
        Ok(()) => Ok(()),
        Err(end) => Err(fault_at(row.line, end)),
    }
}

// The fault of a row of this line where its looks ended so.
fn fault_at(line: u32, end: SeeEnd) -> CheckFault
    ensures call { failed_call result ≡ failed_look end }
    ensures agreed { contradicts end ≡ false → IsFreeOr result None }
    ensures line { IsFreeOr result (Some (fault.Stale line)) }
{
    match end {
        SeeEnd::Failed(call) => CheckFault::TreeFault(call),
        SeeEnd::Contradicts => CheckFault::Stale(line),
        SeeEnd::Memory => CheckFault::Memory,
    }
}

// Whether what was found at a source isn't as its row shows it.
fn is_stale(findings: &Findings, source: &Path, was: &Option<Shown>) -> bool
    ensures { result ≡ is_stale_at (sight_in findings.now) (Some source.now) was.now }
{
    let Some(was) = was else {
        return false;
    };
    match findings.found.get(source) {
        Some(found) => !is_as_shown(was, found),
        None => true,
    }
}

// Whether what was found is as a row shows it: of the same kind, as a link with the same target, else of the same mode.
fn is_as_shown(was: &Shown, found: &Option<Seen>) -> bool
    ensures { result ≡ is_as_shown_of was.now found.now }
{
    match found {
        None => false,
        Some(Seen::Dir { mode }) => matches!(was.kind, Kind::Dir) && *mode == was.mode,
        Some(Seen::Link { target }) => {
            matches!(was.kind, Kind::Link) && target.as_str() == was.target.as_str()
        }
        Some(Seen::File { mode, .. }) => matches!(was.kind, Kind::File) && *mode == was.mode,
    }
}
