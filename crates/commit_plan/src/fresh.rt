// The entries that changes ask for.
ghost use Rattle.std.specs.Prelude.{◌≡◌, IfOk, map};
ghost use Rattle.std.specs.List.{filter_map};
ghost use Rattle.edit_words.specs.Edited.{asked_fresh};
ghost use Rattle.commit_plan.specs.Holding.{link_of, what_of};

use dired_text::Memory;
use std::alloc::Global;
use tree_core::{Changes, Creation, Edit, Fresh};

/// The entries that changes ask for, by line.
pub fn asked(alloc: Global, changes: &Changes) -> Result<Vec<Fresh>, Memory>
    ensures { IfOk result (λ v. v.items ≡ asked_fresh changes.now) }
{
    match changes {
        Changes::Edits(edits) => links_of(alloc, edits.as_slice()),
        Changes::Removals(_) => Ok(Vec::new(alloc)),
        Changes::Creations(creations) => created(alloc, creations.as_slice()),
    }
}

fn links_of(alloc: Global, edits: &[Edit]) -> Result<Vec<Fresh>, Memory>
    ensures { IfOk result (λ v. v.items ≡ filter_map link_of edits.now) }
{
    let mut links = Vec::new(alloc);
    for edit in edits {
        if let Some(target) = &edit.target {
            links.push(Fresh::Link(target.copy()?))?;
        }
    }
    Ok(links)
}

fn created(alloc: Global, creations: &[Creation]) -> Result<Vec<Fresh>, Memory>
    ensures { IfOk result (λ v. v.items ≡ map what_of creations.now) }
{
    let mut all = Vec::with_capacity(alloc, creations.len())?;
    for creation in creations {
        all.push(copy_fresh(&creation.what)?)?;
    }
    Ok(all)
}

fn copy_fresh(fresh: &Fresh) -> Result<Fresh, Memory>
    ensures { IfOk result (λ f. f ≡ fresh.now) }
{
    match fresh {
        Fresh::Link(target) => Ok(Fresh::Link(target.copy()?)),
        Fresh::File(bytes, mode) => Ok(Fresh::File(bytes.copy()?, *mode)),
        Fresh::Same(path) => Ok(Fresh::Same(path.copy()?)),
    }
}
