// The directories of a step's paths.
ghost use Rattle.std.specs.Prelude.{◌≡◌, IfOk};
ghost use Rattle.dired_text.specs.Paths.{parent as parent_path};
ghost use Rattle.step_looks.specs.Looks.{parents_of as parents_of_step};

use commit_steps::Step;
use dired_text::{Memory, Path};
use std::alloc::Global;

/// The directories in which the paths of a step stand, made beforehand so that a look takes no memory.
#[derive(Debug, Drop)]
pub struct Parents {
    /// That of the first path.
    pub first: Path,
    /// That of the last path, which is the first one where the step has one path.
    pub last: Path,
}

/// The directories in which the paths of a step stand.
pub fn parents_of(alloc: Global, step: &Step) -> Result<Parents, Memory>
    ensures { IfOk result (λ p. p ≡ parents_of_step step.now) }
{
    let (first, last) = match step {
        Step::MakeDir(path) => (path, path),
        Step::Rename(from, to) => (from, to),
        Step::Mode(path, _, _) => (path, path),
    };
    Ok(Parents {
        first: parent(alloc, first)?,
        last: parent(alloc, last)?,
    })
}

// The path without its last name; the root's is the root.
fn parent(alloc: Global, path: &Path) -> Result<Path, Memory>
    ensures { IfOk result (λ p. p ≡ parent_path path.now) }
{
    let names = path.names();
    match Path::join(alloc, &names[..names.len().saturating_sub(1)])? {
        Some(parent) => Ok(parent),
        None => unreachable!(),
    }
}
