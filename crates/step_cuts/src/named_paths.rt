// The paths that the steps of a group name.
ghost use Rattle.std.specs.Prelude.{◌≡◌, [], ◌∷◌, ◌++◌, IfOk, List, OnOk, is_none};
ghost use Rattle.std.specs.List.{list_all};
ghost use Rattle.commit_steps.specs.Tests.{are_apart as paths_apart};
ghost use Rattle.dired_text.specs.Paths.{Names};
ghost use Rattle.step_trees.specs.Groups.{paths_of};
ghost use Rattle.step_cuts.specs.Named.{HasMaps, Holds};

use commit_steps::Step;
use dired_text::{Memory, Path};
use path_map::PathMap;
use std::alloc::Global;

// Paths, and whether each was apart from the ones before it: two paths are apart where neither is equal to or below the other.
#[derive(Drop)]
pub(crate) struct NamedPaths {
    // the paths that were named
    named: PathMap<()>,
    // all paths above these
    above: PathMap<()>,
    are_apart: bool,
}

impl NamedPaths {
    // The paths of a step.
    pub(crate) fn of(alloc: Global, step: &Step) -> Result<Self, Memory>
        ensures maps { IfOk result HasMaps }
        ensures paths { IfOk result (Holds (paths_of step.now)) }
    {
        let mut paths = Self::new(alloc)?;
        paths.add(alloc, step)?;
        Ok(paths)
    }

    // No paths.
    fn new(alloc: Global) -> Result<Self, Memory>
        ensures maps { IfOk result HasMaps }
        ensures none { IfOk result (Holds []) }
    {
        Ok(NamedPaths {
            named: PathMap::new(alloc)?,
            above: PathMap::new(alloc)?,
            are_apart: true,
        })
    }

    // Whether each path is apart from all the others.
    pub(crate) fn are_apart(&self) -> bool
        ensures { result ≡ self.now.are_apart }
    {
        self.are_apart
    }

    // Adds the paths of a step.
    pub(crate) fn add(&mut self, alloc: Global, step: &Step) -> Result<(), Memory>
        requires { HasMaps self.old }
        ensures maps { OnOk result (HasMaps self.new) }
        ensures paths { OnOk result ((ps : List Names) → Holds ps self.old →
            Holds (ps ++ paths_of step.now) self.new) }
    {
        match step {
            Step::MakeDir(path) => self.name(alloc, path),
            Step::Rename(from, to) => {
                self.name(alloc, from)?;
                self.name(alloc, to)
            }
            Step::Mode(path, _, _) => self.name(alloc, path),
        }
    }

    // Adds a path.
    fn name(&mut self, alloc: Global, path: &Path) -> Result<(), Memory>
        requires { HasMaps self.old }
        ensures maps { OnOk result (HasMaps self.new) }
        ensures paths { OnOk result ((ps : List Names) → Holds ps self.old →
            Holds (ps ++ path.now ∷ []) self.new) }
    {
        let is_apart = self.is_apart(alloc, path)?;
        self.named.set(path, ())?;
        self.above.set_above(path, ())?;
        self.are_apart = self.are_apart && is_apart;
        Ok(())
    }

    // Whether a path is apart from each of these.
    fn is_apart(&self, alloc: Global, path: &Path) -> Result<bool, Memory>
        ensures { IfOk result (λ b. (ps : List Names) → Holds ps self.now → b ≡
            list_all (paths_apart path.now) ps) }
    {
        let along = self.named.along(alloc, path)?;
        Ok(are_none(&along) && self.above.get(path).is_none())
    }
}

// Whether none of these is there.
fn are_none(values: &[Option<&()>]) -> bool
    ensures { result ≡ list_all is_none values.now }
{
    values.iter().all(|value| value.is_none())
}
