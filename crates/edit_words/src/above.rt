// The paths above a path.
ghost use Rattle.std.specs.Prelude.{◌≡◌, ◌≤◌, IfOk, length, take};
ghost use Rattle.dired_text.specs.Paths.{parent as parent_of};
ghost use Rattle.edit_words.specs.Place.{ancestors as ancestors_of};

use dired_text::{Memory, Path};
use std::alloc::Global;

/// The paths strictly above a path, the root first.
pub fn ancestors(alloc: Global, path: &Path) -> Result<Vec<Path>, Memory>
    ensures { IfOk result (λ v. v.items ≡ ancestors_of path.now) }
{
    let count = path.names().len();
    let mut found = Vec::with_capacity(alloc, count)?;
    for len in 0..count {
        found.push(ancestor(alloc, path, len)?)?;
    }
    Ok(found)
}

/// The path of the first names of a path.
pub fn ancestor(alloc: Global, path: &Path, len: usize) -> Result<Path, Memory>
    requires { len ≤ length path.now }
    ensures { IfOk result (λ p. p ≡ take len path.now) }
{
    match Path::join(alloc, &path.names()[..len])? {
        Some(ancestor) => Ok(ancestor),
        None => unreachable!(),
    }
}
