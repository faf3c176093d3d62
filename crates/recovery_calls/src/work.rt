// What a recovery with the journal `plan` takes with it.
ghost use Rattle.std.specs.Prelude.{◌≡◌, ◌-◌, ◌≤◌, IfOk, drop, length, take};
ghost use Rattle.std.specs.List.{AllByRecursion};
ghost use Rattle.recovery_calls.specs.Underway.{AreOnce, NamesAmong};
ghost use Rattle.recovery_calls.specs.Works.{IsWork, entries_of as names_in_work};
ghost use Rattle.step_looks.specs.Looks.{AreParents};
ghost use Rattle.step_trees.specs.Steps.{IsStep};

use crate::entries::entries_of;
use commit_calls::{StagingPaths, staging_paths};
use commit_steps::{Step, Steps};
use dired_text::{Memory, Path};
use staging_names::EntryName;
use std::alloc::Global;
use step_looks::{Parents, parents_of};

/// An entry of the staging directory, with its path.
#[derive(Debug, Drop)]
pub struct Entry {
    /// Its name.
    pub name: EntryName,
    /// Its path.
    pub path: Path,
}

/// What a recovery with the journal `plan` takes with it, made before its changing calls.
#[derive(Drop)]
pub struct Work {
    /// The steps of the journal.
    pub steps: Steps,
    /// The directories of each step's paths.
    pub parents: Vec<Parents>,
    /// The entries that were read or that a step names, each once.
    pub entries: Vec<Entry>,
    /// The paths of the staging directory and of the journal.
    pub paths: StagingPaths,
}

/// What a recovery takes with it that has these steps, and of these entries each once, among which are all that the steps name.
///
/// # Errors
/// `Memory` where an allocation was refused.
pub fn work_of(alloc: Global, steps: Steps, names: &[EntryName]) -> Result<Work, Memory>
    requires steps { AllByRecursion IsStep steps }
    requires once { AreOnce names.now }
    requires among { AllByRecursion (NamesAmong names.now) steps }
    ensures work { IfOk result (λ w. IsWork w) }
    ensures steps { IfOk result (λ w. w.steps ≡ steps) }
    ensures entries { IfOk result (λ w. names_in_work w ≡ names.now) }
{
    let parents = all_parents(alloc, steps.as_slice())?;
    let entries = entries_of(alloc, names)?;
    let paths = staging_paths(alloc)?;
    Ok(Work {
        steps,
        parents,
        entries,
        paths,
    })
}

// The directories of the paths of each step.
fn all_parents(alloc: Global, steps: &[Step]) -> Result<Vec<Parents>, Memory>
    ensures { IfOk result (λ v. AreParents steps.now v.items) }
{
    let mut all = Vec::new(alloc);
    for step in steps {
        all.push(parents_of(alloc, step)?)?;
    }
    Ok(all)
}

impl Work {
    // The entries.
    pub(crate) fn entries(&self) -> &[Entry]
        ensures { result.now ≡ self.now.entries.items }
    {
        &self.entries
    }

    // The steps between two places.
    pub(crate) fn part(&self, from: usize, end: usize) -> &[Step]
        requires order { from ≤ end }
        requires within { end ≤ length self.now.steps }
        ensures { result.now ≡ take (end - from) (drop from self.now.steps) }
    {
        &self.steps.as_slice()[from..end]
    }

    // The directories of the paths of each of them.
    pub(crate) fn part_parents(&self, from: usize, end: usize) -> &[Parents]
        requires order { from ≤ end }
        requires within { end ≤ length self.now.parents.items }
        ensures { result.now ≡ take (end - from) (drop from self.now.parents.items) }
    {
        &self.parents[from..end]
    }
}
