// Whether changes can be asked for: by lines that rise, of paths that differ, none of which is the root, and lawful.
ghost use Rattle.std.specs.Prelude.{◌≡◌, ◌≢◌, ◌||◌, [], All, IfOk, IsTrue, OnOk, Some, false, is_some, not, true};
ghost use Rattle.std.specs.BTreeSet.{contains};
ghost use Rattle.dired_text.specs.Paths.{Names, path_cmp};
ghost use Rattle.tree_core.specs.FileTree.{IsTarget};
ghost use Rattle.edit_words.specs.Rows.{is_same_path};
ghost use Rattle.edit_words.specs.WellFormed.{AreAsked, IsEdit, IsNoRoot, LinesRise, SourcesDiffer};
ghost use Rattle.asked_changes.specs.Asking.{AreLawfulChanges, HasNewMode, HasNewTarget, IsLawfulFresh};

use dired_text::{Memory, Path, Text};
use edit_words::{Row, rows_of};
use std::alloc::Global;
use std::collections::BTreeSet;
use tree_core::{Changes, Creation, Edit, Fresh, Kind};

// The most changes of one commit.
const MAX_CHANGES: usize = 262_144;

const MAX_MODE: u16 = 0o7777;

const MAX_TARGET_BYTES: usize = 4095;

/// Whether changes can be asked for, whatever stands in the tree.
pub fn can_be_asked(alloc: Global, changes: &Changes) -> Result<bool, Memory>
    ensures { IfOk result (λ b. IsTrue b → AreAsked changes.now) }
{
    let rows = rows_of(alloc, changes)?;
    if rows.len() > MAX_CHANGES
        || !lines_rise(&rows)
        || !none_is_root(&rows)
        || !are_lawful(changes)
    {
        return Ok(false);
    }
    let differ = sources_differ(alloc, &rows)?;
    Ok(differ)
}

fn lines_rise(rows: &[Row]) -> bool
    ensures { IsTrue result → LinesRise rows.now }
{
    let mut least = 0u64;
    for row in rows {
        if u64::from(row.line) < least {
            return false;
        }
        least = u64::from(row.line) + 1;
    }
    true
}

fn none_is_root(rows: &[Row]) -> bool
    ensures { IsTrue result → All IsNoRoot rows.now }
{
    for row in rows {
        if is_root(&row.source) || is_root(&row.to) {
            return false;
        }
    }
    true
}

fn is_root(path: &Option<Path>) -> bool
    ensures { result ≡ false → path.now ≢ Some [] }
{
    match path {
        Some(path) => path.names().is_empty(),
        None => false,
    }
}

fn sources_differ(alloc: Global, rows: &[Row]) -> Result<bool, Memory>
    ensures { IfOk result (λ b. IsTrue b → SourcesDiffer rows.now) }
{
    let mut seen = BTreeSet::new(alloc);
    for row in rows {
        if !note_source(&mut seen, row)? {
            return Ok(false);
        }
    }
    Ok(true)
}

// Notes the source of a row, and answers whether it is new.
fn note_source(seen: &mut BTreeSet<Path>, row: &Row) -> Result<bool, Memory>
    ensures kept { OnOk result ((p : Names) →
        contains path_cmp seen.old p ≡ true → contains path_cmp seen.new p ≡ true) }
    ensures noted { OnOk result ((p : Names) →
        row.now.source ≡ Some p → contains path_cmp seen.new p ≡ true) }
    ensures fresh { IfOk result (λ b. IsTrue b → (p : Names) →
        row.now.source ≡ Some p → contains path_cmp seen.old p ≡ false) }
{
    match &row.source {
        Some(source) => add(seen, source),
        None => Ok(true),
    }
}

// Puts a path into a set, and answers whether it is new.
fn add(paths: &mut BTreeSet<Path>, path: &Path) -> Result<bool, Memory>
    ensures kept { OnOk result ((p : Names) →
        contains path_cmp paths.old p ≡ true → contains path_cmp paths.new p ≡ true) }
    ensures noted { OnOk result (contains path_cmp paths.new path.now ≡ true) }
    ensures fresh { IfOk result (λ b. b ≡ not (contains path_cmp paths.old path.now)) }
{
    Ok(paths.insert(path.copy()?)?)
}

fn are_lawful(changes: &Changes) -> bool
    ensures { IsTrue result → AreLawfulChanges changes.now }
{
    match changes {
        Changes::Edits(edits) => are_edits(edits.as_slice()),
        Changes::Removals(_) => true,
        Changes::Creations(creations) => are_fresh(creations.as_slice()),
    }
}

fn are_edits(edits: &[Edit]) -> bool
    ensures { IsTrue result → All IsEdit edits.now }
{
    for edit in edits {
        if !is_edit(edit) {
            return false;
        }
    }
    true
}

// Whether an edit asks for something, and all that it asks for is lawful and another one than before.
fn is_edit(edit: &Edit) -> bool
    ensures { IsTrue result → IsEdit edit.now }
{
    if !asks(edit) || !has_new_path(edit) || !has_new_target(edit) {
        return false;
    }
    has_new_mode(edit)
}

fn asks(edit: &Edit) -> bool
    ensures { IsTrue result →
        IsTrue (is_some edit.now.to || is_some edit.now.target || is_some edit.now.mode) }
{
    edit.to.is_some() || edit.target.is_some() || edit.mode.is_some()
}

fn has_new_path(edit: &Edit) -> bool
    ensures { IsTrue result → edit.now.to ≢ Some edit.now.source }
{
    match &edit.to {
        Some(to) => differ(to, &edit.source),
        None => true,
    }
}

fn differ(a: &Path, b: &Path) -> bool
    ensures { IsTrue result → a.now ≢ b.now }
{
    !is_same(a, b)
}

fn is_same(a: &Path, b: &Path) -> bool
    ensures { result ≡ is_same_path a.now b.now }
{
    a.cmp(b).is_eq()
}

fn has_new_target(edit: &Edit) -> bool
    ensures { IsTrue result → HasNewTarget edit.now }
{
    match &edit.target {
        Some(target) => {
            let is_other = target.as_str() != edit.was.target.as_str();
            matches!(edit.was.kind, Kind::Link) && is_other && is_target(target)
        }
        None => true,
    }
}

fn has_new_mode(edit: &Edit) -> bool
    ensures { IsTrue result → HasNewMode edit.now }
{
    match edit.mode {
        Some(mode) => {
            !matches!(edit.was.kind, Kind::Link) && mode != edit.was.mode && mode <= MAX_MODE
        }
        None => true,
    }
}

// Whether a text has 1 to 4,095 bytes without NUL.
fn is_target(text: &Text) -> bool
    ensures { IsTrue result → IsTarget text.now }
{
    let bytes = text.as_str().as_bytes();
    !bytes.is_empty() && bytes.len() <= MAX_TARGET_BYTES && bytes.iter().all(|b| *b != 0)
}

fn are_fresh(creations: &[Creation]) -> bool
    ensures { IsTrue result → All (λ c. IsLawfulFresh c.what) creations.now }
{
    for creation in creations {
        if !is_fresh(&creation.what) {
            return false;
        }
    }
    true
}

fn is_fresh(fresh: &Fresh) -> bool
    ensures { IsTrue result → IsLawfulFresh fresh.now }
{
    match fresh {
        Fresh::Link(target) => is_target(target),
        Fresh::File(_, mode) => *mode <= MAX_MODE,
        Fresh::Same(_) => true,
    }
}
