// The paths that a walk of a tree has still to visit.
ghost use Rattle.std.specs.Prelude.{◌≡◌, ◌++◌, IfOk, OnOk};
ghost use Rattle.find_listing.specs.Walks.{children, paths_in, pending, IsNext};

use dired_text::{Memory, Name, Path};
use std::alloc::Global;
use std::mem;

// A directory, and the names in it that are still to be visited, the next one last.
#[derive(Drop)]
pub(crate) struct Level {
    pub(crate) dir: Path,
    pub(crate) names: Vec<Name>,
}

// A walk, which visits a directory before what stands in it. It keeps the names of each directory that it is in, and no stack of
// calls, so that no depth of a tree overflows one.
#[derive(Drop)]
pub(crate) struct Walk {
    // The innermost directory.
    pub(crate) level: Level,
    // Those above it, the root first.
    pub(crate) above: Vec<Level>,
}

// What comes next in a walk.
#[derive(Drop)]
pub(crate) enum Step {
    End,
    // A path with more bytes than a call can look at.
    TooLong,
    At(Path),
}

// A directory with all of its names.
fn level_of(dir: Path, names: Vec<Name>) -> Level
    ensures { paths_in result ≡ children dir names.items }
{
    let mut names = names;
    names.reverse();
    Level { dir, names }
}

impl Walk {
    // The walk of what stands in a directory.
    pub(crate) fn new(alloc: Global, dir: Path, names: Vec<Name>) -> Self
        ensures { pending result ≡ children dir names.items }
    {
        Walk {
            level: level_of(dir, names),
            above: Vec::new(alloc),
        }
    }

    // What stands in a directory comes next.
    pub(crate) fn enter(&mut self, dir: Path, names: Vec<Name>) -> Result<(), Memory>
        ensures { OnOk result (pending self.new ≡ children dir names.items ++ pending self.old) }
    {
        let outer = mem::replace(&mut self.level, level_of(dir, names));
        self.above.push(outer)?;
        Ok(())
    }

    // Takes the next path off.
    pub(crate) fn next(&mut self) -> Result<Step, Memory>
        ensures { IfOk result (λ step. IsNext (pending self.old) (pending self.new) step) }
    {
        loop {
            if let Some(name) = self.level.names.pop() {
                return match self.level.dir.child(&name)? {
                    Some(path) => Ok(Step::At(path)),
                    None => Ok(Step::TooLong),
                };
            }
            match self.above.pop() {
                Some(level) => self.level = level,
                None => return Ok(Step::End),
            }
        }
    }
}
