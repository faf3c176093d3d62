// Where a rename takes a path.
ghost use Rattle.std.specs.Prelude.{◌≡◌, ◌++◌, IfOk, IfSome, OnOk};
ghost use Rattle.tree_core.specs.FileTree.{moved};

use dired_text::{Memory, Name, Path, rest_below};
use std::alloc::Global;

/// Where what stood at a path stands behind a rename of `from` to `to`, or None where that would be too long for a path.
pub fn moved_path(
    alloc: Global,
    path: &Path,
    from: &Path,
    to: &Path,
) -> Result<Option<Path>, Memory>
    ensures { IfOk result (λ found. IfSome found (λ p. p ≡ moved from.now to.now path.now)) }
{
    match rest_below(from.names(), path.names()) {
        None => Ok(Some(path.copy()?)),
        Some(rest) => joined(alloc, to, rest),
    }
}

// The path of these names below a directory, or None where it would be too long.
fn joined(alloc: Global, dir: &Path, rest: &[Name]) -> Result<Option<Path>, Memory>
    ensures { IfOk result (λ found. IfSome found (λ p. p ≡ dir.now ++ rest.now)) }
{
    let mut names = Vec::new(alloc);
    push_copies(&mut names, dir.names())?;
    push_copies(&mut names, rest)?;
    Path::join(alloc, &names)
}

fn push_copies(names: &mut Vec<Name>, more: &[Name]) -> Result<(), Memory>
    ensures { OnOk result (names.new.items ≡ names.old.items ++ more.now) }
{
    for name in more {
        names.push(name.copy()?)?;
    }
    Ok(())
}
