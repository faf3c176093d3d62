// What a plan puts aside.
ghost use Rattle.std.specs.Prelude.{◌≡◌, ◌++◌, ◌≤◌, IfOk, OnOk, length, if◌then◌else◌, []};
ghost use Rattle.plan_moves.specs.Plan.{holds, is_given_up as is_given_up_row, listed};
ghost use Rattle.commit_plan.specs.Holding.{held_from, max_held, victims_at, victims_past};

use crate::names::{Entry, entry_path};
use commit_steps::Step;
use dired_text::{Memory, Path};
use edit_words::Row;
use std::alloc::Global;

/// What is put aside, by line: a line's victim before its source.
pub fn held_paths(alloc: Global, rows: &[Row], victims: &[(u32, Path)]) -> Result<Vec<Path>, Memory>
    ensures { IfOk result (λ v. v.items ≡ held_from victims.now rows.now) }
{
    let mut held = Vec::new(alloc);
    let mut rest = victims;
    for row in rows {
        rest = add_victim(&mut held, row.line, rest)?;
        add_given_up(&mut held, row)?;
    }
    Ok(held)
}

// Adds the victim of a line, if it is the first of these, and gives the others.
fn add_victim<'a>(
    held: &mut Vec<Path>,
    line: u32,
    victims: &'a [(u32, Path)],
) -> Result<&'a [(u32, Path)], Memory>
    ensures held { OnOk result (held.new.items ≡ held.old.items ++ victims_at line victims.now) }
    ensures rest { IfOk result (λ rest. rest.now ≡ victims_past line victims.now) }
{
    match victims {
        [(first, path), rest @ ..] if *first == line => {
            held.push(path.copy()?)?;
            Ok(rest)
        }
        _ => Ok(victims),
    }
}

// Adds the source of a row that is given up.
fn add_given_up(held: &mut Vec<Path>, row: &Row) -> Result<(), Memory>
    ensures { OnOk result (held.new.items ≡ held.old.items
        ++ (if is_given_up_row row.now then listed row.now.source else [])) }
{
    match &row.source {
        Some(source) if row.retargets || row.removes => {
            held.push(source.copy()?)?;
            Ok(())
        }
        _ => Ok(()),
    }
}

/// Adds a step for each path that is put aside.
#[tactic(auto, unfolding(commit_steps::specs::Staging::held))]
pub fn add_holds(alloc: Global, steps: &mut Vec<Step>, paths: Vec<Path>) -> Result<(), Memory>
    requires { length paths.items ≤ max_held }
    ensures { OnOk result (steps.new.items ≡ steps.old.items ++ holds 0 paths.items) }
{
    let mut number = 0;
    for path in paths {
        let spot = entry_path(alloc, Entry::Held, number)?;
        steps.push(Step::Rename(path, spot))?;
        number += 1;
    }
    Ok(())
}
