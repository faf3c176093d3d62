// What a recovery does and takes with it, made before its first changing call.
ghost use Rattle.std.specs.Prelude.{◌≡◌, IfOk, Some};
ghost use Rattle.commit_recover.specs.Tasks.{IsTaskFor};
ghost use Rattle.recovery_start.specs.Start.{IsSortedOut};
ghost use Rattle.staging_names.specs.declared.staged_name.Journal.TheVariants.{Plan};
ghost use Rattle.staging_names.specs.declared.standing.Standing as standing;

use crate::items::items_of;
use commit_calls::{StagingPaths, staging_paths};
use dired_text::{Memory, Path};
use recovery_calls::{Item, Turn, Way, Work, back_way, forward_way, turn_of, work_of};
use recovery_start::Leftovers;
use staging_names::{Journal, Marker, Side};
use std::alloc::Global;
use step_cuts::cuts;

/// What a recovery does, by what it found.
#[derive(Drop)]
pub(crate) enum Task {
    /// Without a journal: these are removed, and then the staging directory.
    Clear {
        entries: Vec<Path>,
        paths: StagingPaths,
    },
    /// From `done`: these are removed, and then the journal and the staging directory.
    Seal {
        items: Vec<Item>,
        paths: StagingPaths,
    },
    /// The same from `undone`.
    Undo {
        items: Vec<Item>,
        paths: StagingPaths,
    },
    /// From `plan` and `at-M`, to the edited tree.
    Forward {
        work: Work,
        way: Way,
    },
    /// From `plan` and `back-M`, to the old tree.
    Back {
        work: Work,
        way: Way,
    },
    /// From `plan` and `at-M`, to the old tree.
    Turn {
        work: Work,
        turn: Turn,
    },
}

/// What is to be done with this; `back` chooses the old tree where both are possible.
pub(crate) fn task_for(alloc: Global, left: Leftovers, back: bool) -> Result<Task, Memory>
    requires sorted_out { IsSortedOut left }
    ensures { IfOk result (IsTaskFor left back) }
{
    match left.standing.journal {
        None => Ok(Task::Clear {
            entries: left.paths,
            paths: staging_paths(alloc)?,
        }),
        Some(Journal::Plan) => match left.standing.marker {
            Some(marker) => planned(alloc, left, marker, back),
            None => unreachable!(),
        },
        Some(Journal::Done) => Ok(Task::Seal {
            items: items_of(alloc, &left)?,
            paths: staging_paths(alloc)?,
        }),
        Some(Journal::Undone) => Ok(Task::Undo {
            items: items_of(alloc, &left)?,
            paths: staging_paths(alloc)?,
        }),
    }
}

// The same where `plan` and this marker stand.
fn planned(alloc: Global, left: Leftovers, marker: Marker, back: bool) -> Result<Task, Memory>
    requires sorted_out { IsSortedOut left }
    requires standing { left.standing ≡ record { journal = Some Plan; marker = Some marker } }
    ensures { IfOk result (IsTaskFor left back) }
{
    let place = marker.number as usize;
    let ends = cuts(alloc, left.steps.as_slice())?;
    let work = work_of(alloc, left.steps, &left.entries)?;
    match marker.side {
        Side::At if back => {
            let turn = turn_of(alloc, work.steps.as_slice(), &ends, place)?;
            Ok(Task::Turn { work, turn })
        }
        Side::At => {
            let way = forward_way(alloc, work.steps.as_slice(), &ends, place)?;
            Ok(Task::Forward { work, way })
        }
        Side::Back => {
            let way = back_way(alloc, work.steps.as_slice(), &ends, place)?;
            Ok(Task::Back { work, way })
        }
    }
}
