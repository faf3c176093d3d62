// Looks at paths, each once.
ghost use Rattle.std.specs.Prelude.{◌≡◌, IfOk, IfErr, OnOk, Some, true, false, is_some, IsTrue};
ghost use Rattle.std.specs.BTreeMap.{get};
ghost use Rattle.dired_text.specs.Paths.{Names, path_cmp};
ghost use Rattle.tree_core.specs.History.{current_tree};
ghost use Rattle.tree_core.specs.Looks.{OnlyLooked, failed_in, faults_with};
ghost use Rattle.edit_words.specs.Place.{IsAbove};
ghost use Rattle.edit_words.specs.Sight.{sight_of, is_dir as is_dir_of};
ghost use Rattle.edit_words.specs.Found.{sight_in, HasFindings, HasGrown, IsClosed, IsLookAt, IsLookedAt, IsSeen};
ghost use Rattle.edit_looks.specs.Looks.{failed_look, contradicts};

use crate::look::{SeeEnd, look};
use dired_text::{Failed, Path};
use edit_words::{Findings, Seen, ancestor};
use std::alloc::Global;
use tree_core::{CallName, Tree};

/// Looks at a path and at what is above it, from the root down, where that wasn't done before. Below what is no directory nothing
/// stands, and nothing is looked at.
///
/// # Errors
/// `Contradicts` never where the tree tells what it contains.
pub fn see<T: Tree>(
    alloc: Global,
    tree: &mut T,
    findings: &mut Findings,
    path: &Path,
) -> Result<(), SeeEnd>
    requires closed { IsClosed findings.old }
    requires told { T.Tells → HasFindings findings.old
        (sight_of (current_tree (T.history tree.old))) }
    ensures seen { OnOk result (IsSeen findings.new path.now) }
    ensures above { OnOk result ((u : Names) → IsAbove u path.now → IsSeen findings.new u) }
    ensures grown { HasGrown findings.old findings.new }
    ensures closed { IsClosed findings.new }
    ensures told { T.Tells → HasFindings findings.new
        (sight_of (current_tree (T.history tree.old))) }
    ensures agrees { T.Tells → IfErr result (λ e. contradicts e ≡ false) }
    ensures looked { T.Tells → OnlyLooked (failed_in failed_look result)
        (T.history tree.old) (T.history tree.new) (T.fields tree.old) (T.fields tree.new)
        (T.before_failed tree.old) (T.before_failed tree.new) }
    ensures faults { T.faults tree.new ≡
        faults_with (failed_in failed_look result) (T.faults tree.old) }
    ensures unchanged { T.changes tree.new ≡ T.changes tree.old }
    ensures looks { IsLookAt (failed_in failed_look result) }
{
    if findings.stands(path) {
        return Ok(());
    }
    let count = path.names().len();
    if count == 0 {
        return see_down(alloc, tree, findings, path);
    }
    let dir = ancestor(alloc, path, count - 1)?;
    if findings.is_dir(&dir) {
        see_here(alloc, tree, findings, path)?;
        return Ok(());
    }
    see_down(alloc, tree, findings, path)
}

// Looks at the root and at each path down to this one, to the first that is no directory.
fn see_down<T: Tree>(
    alloc: Global,
    tree: &mut T,
    findings: &mut Findings,
    path: &Path,
) -> Result<(), SeeEnd>
    requires closed { IsClosed findings.old }
    requires told { T.Tells → HasFindings findings.old
        (sight_of (current_tree (T.history tree.old))) }
    ensures seen { OnOk result (IsSeen findings.new path.now) }
    ensures above { OnOk result ((u : Names) → IsAbove u path.now → IsSeen findings.new u) }
    ensures grown { HasGrown findings.old findings.new }
    ensures closed { IsClosed findings.new }
    ensures told { T.Tells → HasFindings findings.new
        (sight_of (current_tree (T.history tree.old))) }
    ensures agrees { T.Tells → IfErr result (λ e. contradicts e ≡ false) }
    ensures looked { T.Tells → OnlyLooked (failed_in failed_look result)
        (T.history tree.old) (T.history tree.new) (T.fields tree.old) (T.fields tree.new)
        (T.before_failed tree.old) (T.before_failed tree.new) }
    ensures faults { T.faults tree.new ≡
        faults_with (failed_in failed_look result) (T.faults tree.old) }
    ensures unchanged { T.changes tree.new ≡ T.changes tree.old }
    ensures looks { IsLookAt (failed_in failed_look result) }
{
    for len in 0..path.names().len() + 1 {
        let at = ancestor(alloc, path, len)?;
        if !see_here(alloc, tree, findings, &at)? {
            return Ok(());
        }
    }
    Ok(())
}

// Looks at a path in a directory that was found, where that wasn't done before. Answers whether it is a directory.
fn see_here<T: Tree>(
    alloc: Global,
    tree: &mut T,
    findings: &mut Findings,
    path: &Path,
) -> Result<bool, SeeEnd>
    requires above { (u : Names) → IsAbove u path.now → is_dir_of ((sight_in findings.old).at u) ≡
        true }
    requires closed { IsClosed findings.old }
    requires told { T.Tells → HasFindings findings.old
        (sight_of (current_tree (T.history tree.old))) }
    ensures looked_at { OnOk result (IsLookedAt findings.new path.now) }
    ensures dir { IfOk result (λ b. b ≡ is_dir_of ((sight_in findings.new).at path.now)) }
    ensures grown { HasGrown findings.old findings.new }
    ensures closed { IsClosed findings.new }
    ensures told { T.Tells → HasFindings findings.new
        (sight_of (current_tree (T.history tree.old))) }
    ensures agrees { T.Tells → IfErr result (λ e. contradicts e ≡ false) }
    ensures looked { T.Tells → OnlyLooked (failed_in failed_look result)
        (T.history tree.old) (T.history tree.new) (T.fields tree.old) (T.fields tree.new)
        (T.before_failed tree.old) (T.before_failed tree.new) }
    ensures faults { T.faults tree.new ≡
        faults_with (failed_in failed_look result) (T.faults tree.old) }
    ensures unchanged { T.changes tree.new ≡ T.changes tree.old }
    ensures looks { IsLookAt (failed_in failed_look result) }
{
    if let Some(found) = findings.found.get(path) {
        return Ok(is_dir(found));
    }
    let found = look(alloc, tree, path)?;
    let dir = is_dir(&found);
    if path.names().is_empty() && !dir {
        return Err(SeeEnd::Contradicts);
    }
    findings.note(path, found)?;
    Ok(dir)
}

/// Looks whether a directory that was found is empty, where that wasn't done before.
pub fn see_empty<T: Tree>(tree: &mut T, findings: &mut Findings, path: &Path) -> Result<(), SeeEnd>
    requires told { T.Tells → HasFindings findings.old
        (sight_of (current_tree (T.history tree.old))) }
    ensures asked { OnOk result (is_dir_of ((sight_in findings.new).at path.now) ≡ true →
        IsTrue (is_some (get path_cmp findings.new.empty path.now))) }
    ensures grown { HasGrown findings.old findings.new }
    ensures found { findings.new.found ≡ findings.old.found }
    ensures told { T.Tells → HasFindings findings.new
        (sight_of (current_tree (T.history tree.old))) }
    ensures agrees { IfErr result (λ e. contradicts e ≡ false) }
    ensures looked { T.Tells → OnlyLooked (failed_in failed_look result)
        (T.history tree.old) (T.history tree.new) (T.fields tree.old) (T.fields tree.new)
        (T.before_failed tree.old) (T.before_failed tree.new) }
    ensures faults { T.faults tree.new ≡
        faults_with (failed_in failed_look result) (T.faults tree.old) }
    ensures unchanged { T.changes tree.new ≡ T.changes tree.old }
    ensures looks { IsLookAt (failed_in failed_look result) }
{
    if !findings.is_dir(path) || findings.empty.contains_key(path) {
        return Ok(());
    }
    match tree.is_empty(path) {
        Err(Failed) => Err(SeeEnd::Failed(CallName::IsEmpty)),
        Ok(empty) => Ok(findings.note_empty(path, empty)?),
    }
}

// Whether a directory was found.
fn is_dir(found: &Option<Seen>) -> bool
    ensures { result ≡ is_dir_of found.now }
{
    matches!(found, Some(Seen::Dir { .. }))
}
