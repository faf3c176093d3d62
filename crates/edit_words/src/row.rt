// Changes in one form.
ghost use Rattle.std.specs.Prelude.{◌≡◌, IfOk, map};
ghost use Rattle.edit_words.specs.Rows.{rows, edit_row, removal_row, creation_row};

use dired_text::{Memory, Name, Path};
use std::alloc::Global;
use tree_core::{Changes, Creation, Edit, Removal, Shown};

/// An edit, a removal or a creation, in one form.
#[derive(Drop)]
pub struct Row {
    /// The number of the line, from 1.
    pub line: u32,
    /// The path that is changed. A creation has none.
    pub source: Option<Path>,
    /// What the line shows at the source.
    pub was: Option<Shown>,
    /// The new path. A removal has none.
    pub to: Option<Path>,
    /// Whether a link gets another target.
    pub retargets: bool,
    /// The new mode.
    pub mode: Option<u16>,
    /// Whether the source is to be removed.
    pub removes: bool,
}

/// What the changes make of a path where its directory has gone to its place.
#[derive(Drop)]
pub enum Route {
    /// It keeps its name.
    Stays,
    /// It gets another name in its directory.
    Named(Name),
    /// It goes to a path.
    Sent(Path),
}

/// The changes as rows, in the order of their lines.
pub fn rows_of(alloc: Global, changes: &Changes) -> Result<Vec<Row>, Memory>
    ensures { IfOk result (λ v. v.items ≡ rows changes.now) }
{
    match changes {
        Changes::Edits(edits) => edit_rows(alloc, edits.as_slice()),
        Changes::Removals(removals) => removal_rows(alloc, removals.as_slice()),
        Changes::Creations(creations) => creation_rows(alloc, creations.as_slice()),
    }
}

fn edit_rows(alloc: Global, edits: &[Edit]) -> Result<Vec<Row>, Memory>
    ensures { IfOk result (λ v. v.items ≡ map edit_row edits.now) }
{
    let mut rows = Vec::with_capacity(alloc, edits.len())?;
    for edit in edits {
        rows.push(row_of_edit(edit)?)?;
    }
    Ok(rows)
}

fn removal_rows(alloc: Global, removals: &[Removal]) -> Result<Vec<Row>, Memory>
    ensures { IfOk result (λ v. v.items ≡ map removal_row removals.now) }
{
    let mut rows = Vec::with_capacity(alloc, removals.len())?;
    for removal in removals {
        rows.push(row_of_removal(removal)?)?;
    }
    Ok(rows)
}

fn creation_rows(alloc: Global, creations: &[Creation]) -> Result<Vec<Row>, Memory>
    ensures { IfOk result (λ v. v.items ≡ map creation_row creations.now) }
{
    let mut rows = Vec::with_capacity(alloc, creations.len())?;
    for creation in creations {
        rows.push(row_of_creation(creation)?)?;
    }
    Ok(rows)
}

fn row_of_edit(edit: &Edit) -> Result<Row, Memory>
    ensures { IfOk result (λ r. r ≡ edit_row edit.now) }
{
    Ok(Row {
        line: edit.line,
        source: Some(edit.source.copy()?),
        was: Some(copy_shown(&edit.was)?),
        to: copy_path(&edit.to)?,
        retargets: edit.target.is_some(),
        mode: edit.mode,
        removes: false,
    })
}

fn row_of_removal(removal: &Removal) -> Result<Row, Memory>
    ensures { IfOk result (λ r. r ≡ removal_row removal.now) }
{
    Ok(Row {
        line: removal.line,
        source: Some(removal.path.copy()?),
        was: Some(copy_shown(&removal.was)?),
        to: None,
        retargets: false,
        mode: None,
        removes: true,
    })
}

fn row_of_creation(creation: &Creation) -> Result<Row, Memory>
    ensures { IfOk result (λ r. r ≡ creation_row creation.now) }
{
    Ok(Row {
        line: creation.line,
        source: None,
        was: None,
        to: Some(creation.to.copy()?),
        retargets: false,
        mode: None,
        removes: false,
    })
}

fn copy_shown(shown: &Shown) -> Result<Shown, Memory>
    ensures { IfOk result (λ s. s ≡ shown.now) }
{
    Ok(Shown {
        kind: shown.kind,
        mode: shown.mode,
        target: shown.target.copy()?,
    })
}

fn copy_path(path: &Option<Path>) -> Result<Option<Path>, Memory>
    ensures { IfOk result (λ p. p ≡ path.now) }
{
    match path {
        None => Ok(None),
        Some(path) => Ok(Some(path.copy()?)),
    }
}
