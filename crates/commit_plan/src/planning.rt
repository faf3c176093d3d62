// The plan of checked changes.
ghost use Rattle.std.specs.Prelude.{◌≡◌, ◌++◌, All, IfOk, IfSome, OnOk, map};
ghost use Rattle.dired_text.specs.Paths.{AreNames};
ghost use Rattle.edit_check.specs.StandFor.{changes_in, found_in};
ghost use Rattle.edit_rules.specs.Plans.{ModeChange};
ghost use Rattle.edit_words.specs.Edited.{asked_fresh};
ghost use Rattle.edit_words.specs.Rows.{rows as rows_in};
ghost use Rattle.commit_journal.specs.Spelling.{CanEncode};
ghost use Rattle.commit_steps.specs.declared.step.Step.TheVariants.{MakeDir};
ghost use Rattle.plan_moves.specs.Plan.{IsPlan, mode_step};
ghost use Rattle.commit_plan.specs.Promises.{AreCounted, AreLeast, HasNames, LeadToEdited};

use crate::fresh::asked;
use crate::holds::{add_holds, held_paths};
use crate::moves::moves;
use crate::planned::Plan;
use commit_steps::{Step, Steps};
use dired_text::{Memory, Path};
use edit_check::{Checked, changes_can_be_made_where_it_stands, what_is_checked};
use edit_words::{Row, rows_of};
use std::alloc::Global;

/// The plan of checked changes: what is put aside, the directories that are made, the moves and the modes, in this order.
/// In each tree that the check stands for they lead to the edited tree, whatever entries are made for the changes, and their number
/// is one of that tree and the changes: what is replaced, what is given up, the directories that are made, the edits with new paths,
/// the entries that are made, the modes that change, and the knots. Where edits only give entries of one directory other names, and
/// replace nothing, no list of renames that does the same is shorter. A journal can spell them and takes them, whatever the tree told.
///
/// # Errors
/// Want of memory.
pub fn plan(alloc: Global, checked: &Checked) -> Result<Plan, Memory>
    ensures plan { IfOk result (λ p.
        IsPlan (found_in checked.now) (rows_in (changes_in checked.now)) p.steps) }
    ensures leads { IfOk result (λ p. LeadToEdited checked.now p.steps) }
    ensures count { IfOk result (λ p. AreCounted checked.now p.steps) }
    ensures least { IfOk result (λ p. AreLeast checked.now p.steps) }
    ensures spelled { IfOk result (λ p. CanEncode p.steps) }
    ensures fresh { IfOk result (λ p. p.fresh.items ≡ asked_fresh (changes_in checked.now)) }
{
    let changes = checked.changes();
    let rows = rows_of(alloc, changes)?;
    // The promises stand on these: the changes can be made in each tree that the check stands for, what was found can stand in a
    // tree, and the names of all paths are lawful.
    changes_can_be_made_where_it_stands(checked);
    what_is_checked(checked);
    read_names(&rows);
    let mut steps = Vec::new(alloc);
    let held = held_paths(alloc, &rows, checked.victims())?;
    add_holds(alloc, &mut steps, held)?;
    add_dirs(&mut steps, checked.missing())?;
    add_moves(&mut steps, moves(alloc, rows)?)?;
    add_modes(&mut steps, checked.modes())?;
    let fresh = asked(alloc, changes)?;
    Ok(Plan {
        steps: Steps::from_vec(steps),
        fresh,
    })
}

/// Reads the names of all paths. That names are lawful is known of a path where they are read.
pub fn read_names(rows: &[Row])
    ensures { All HasNames rows.now }
{
    for row in rows {
        read_path(&row.source);
        read_path(&row.to);
    }
}

fn read_path(path: &Option<Path>)
    ensures { IfSome path.now AreNames }
{
    if let Some(path) = path {
        let _names = path.names();
    }
}

// Adds a step for each directory that has to be made.
fn add_dirs(steps: &mut Vec<Step>, missing: &[Path]) -> Result<(), Memory>
    ensures { OnOk result (steps.new.items ≡ steps.old.items ++ map MakeDir missing.now) }
{
    for path in missing {
        steps.push(Step::MakeDir(path.copy()?))?;
    }
    Ok(())
}

fn add_moves(steps: &mut Vec<Step>, moves: Vec<Step>) -> Result<(), Memory>
    ensures { OnOk result (steps.new.items ≡ steps.old.items ++ moves.items) }
{
    for step in moves {
        steps.push(step)?;
    }
    Ok(())
}

// Adds a step for each mode that changes.
fn add_modes(steps: &mut Vec<Step>, modes: &[(Path, u16, u16)]) -> Result<(), Memory>
    ensures { OnOk result (steps.new.items ≡ steps.old.items ++ map mode_step modes.now) }
{
    for (path, old, new) in modes {
        steps.push(Step::Mode(path.copy()?, *old, *new))?;
    }
    Ok(())
}
