// What a commit takes with it, made before its first changing call.
ghost use Rattle.std.specs.Prelude.{◌≡◌, ◌++◌, ◌∷◌, [], ◌≤◌, All, IfOk, OnOk, length, map};
ghost use Rattle.std.specs.List.{AllByRecursion};
ghost use Rattle.commit_plan.specs.Promises.{AreCounted};
ghost use Rattle.commit_run.specs.Preparing.{FitsTrees, IsPrepared, early_paths};
ghost use Rattle.commit_calls.specs.Paths.{fresh_entry_paths};
ghost use Rattle.commit_steps.specs.Staging.{staged, at_marker, new_journal};
ghost use Rattle.edit_check.specs.StandFor.{changes_in};
ghost use Rattle.edit_words.specs.Edited.{asked_fresh};
ghost use Rattle.step_cuts.specs.Cuts.{ends_of};
ghost use Rattle.step_looks.specs.Looks.{AreParents, parents_of as parents_of_step};
ghost use Rattle.step_trees.specs.Groups.{groups};
ghost use Rattle.step_trees.specs.Steps.{IsStep};

use crate::held::held_by;
use crate::reading::read_texts;
use commit_calls::{
    StagingPaths, at_markers, back_markers, fresh_paths, held_paths, staging_paths,
};
use commit_journal::encode;
use commit_plan::{Plan, plan, read_names};
use commit_states::Held;
use commit_steps::{Step, Steps};
use dired_text::{Bytes, Memory, Path};
use edit_check::{Checked, changes_can_be_made_where_it_stands, what_is_checked};
use edit_words::rows_of;
use std::alloc::Global;
use step_cuts::cuts;
use step_layers::sort_by_layer;
use step_looks::{Parents, parents_of};
use tree_core::Fresh;

/// What a commit takes with it.
#[derive(Drop)]
pub(crate) struct Prepared {
    pub(crate) steps: Steps,
    /// Where the groups of the steps end.
    pub(crate) ends: Vec<usize>,
    pub(crate) fresh: Vec<Fresh>,
    pub(crate) held: Vec<Held>,
    pub(crate) journal: Bytes,
    pub(crate) paths: StagingPaths,
    /// The markers at the first place and at each end of a group.
    pub(crate) at_markers: Vec<Path>,
    /// The same on the way back.
    pub(crate) back_markers: Vec<Path>,
    pub(crate) fresh_paths: Vec<Path>,
    pub(crate) held_paths: Vec<Path>,
    /// What may stand before the journal has its name, the journal last.
    pub(crate) early: Vec<Path>,
    /// The directories of each step's paths.
    pub(crate) parents: Vec<Parents>,
}

/// Makes all that a commit of checked changes takes with it.
pub(crate) fn prepare(alloc: Global, checked: &Checked) -> Result<Prepared, Memory>
    ensures prepared { IfOk result (λ p. IsPrepared p) }
    ensures fits { IfOk result (λ p. FitsTrees checked.now p) }
    ensures fresh { IfOk result (λ p. p.fresh.items ≡ asked_fresh (changes_in checked.now)) }
    ensures count { IfOk result (λ p. AreCounted checked.now p.steps) }
{
    let rows = rows_of(alloc, checked.changes())?;
    // That it fits stands on these.
    changes_can_be_made_where_it_stands(checked);
    what_is_checked(checked);
    read_names(&rows);
    let held = held_by(alloc, &rows, checked.victims())?;
    let Plan {
        steps: planned,
        fresh,
    } = plan(alloc, checked)?;
    // Few groups want few syncs.
    let steps = sort_by_layer(alloc, planned)?;
    read_texts(&fresh);
    let journal = encode(alloc, &steps)?;
    with_paths(alloc, steps, fresh, held, journal)
}

// Adds the paths and the places.
fn with_paths(
    alloc: Global,
    steps: Steps,
    fresh: Vec<Fresh>,
    held: Vec<Held>,
    journal: Bytes,
) -> Result<Prepared, Memory>
    requires { AllByRecursion IsStep steps }
    ensures prepared { IfOk result (λ p. IsPrepared p) }
    ensures steps { IfOk result (λ p. p.steps ≡ steps) }
    ensures fresh { IfOk result (λ p. p.fresh.items ≡ fresh.items) }
    ensures held { IfOk result (λ p. p.held.items ≡ held.items) }
    ensures journal { IfOk result (λ p. p.journal ≡ journal) }
{
    let ends = cuts(alloc, steps.as_slice())?;
    let places = places_of(alloc, &ends)?;
    let paths = staging_paths(alloc)?;
    let at_markers = at_markers(alloc, &places)?;
    let back_markers = back_markers(alloc, &places)?;
    let fresh_paths = fresh_paths(alloc, fresh.len())?;
    let held_paths = held_paths(alloc, &held)?;
    let early = early_of(alloc, &at_markers[0], &fresh_paths, &paths.new_journal)?;
    let parents = all_parents(alloc, steps.as_slice())?;
    Ok(Prepared {
        steps,
        ends,
        fresh,
        held,
        journal,
        paths,
        at_markers,
        back_markers,
        fresh_paths,
        held_paths,
        early,
        parents,
    })
}

// The first place and these.
fn places_of(alloc: Global, ends: &[usize]) -> Result<Vec<usize>, Memory>
    ensures { IfOk result (λ v. v.items ≡ 0 ∷ ends.now) }
{
    let mut places = Vec::new(alloc);
    places.push(0)?;
    places.extend_from_slice(ends)?;
    Ok(places)
}

// The marker, the fresh entries and the journal.
fn early_of(
    alloc: Global,
    marker: &Path,
    fresh: &[Path],
    journal: &Path,
) -> Result<Vec<Path>, Memory>
    ensures { IfOk result (λ v. v.items ≡ marker.now ∷ fresh.now ++ journal.now ∷ []) }
{
    let mut early = Vec::new(alloc);
    early.push(marker.copy()?)?;
    for path in fresh {
        early.push(path.copy()?)?;
    }
    early.push(journal.copy()?)?;
    Ok(early)
}

// The directories of the paths of each step.
fn all_parents(alloc: Global, steps: &[Step]) -> Result<Vec<Parents>, Memory>
    ensures { IfOk result (λ v. AreParents steps.now v.items) }
{
    let mut all = Vec::new(alloc);
    for step in steps {
        all.push(parents_of(alloc, step)?)?;
    }
    Ok(all)
}
