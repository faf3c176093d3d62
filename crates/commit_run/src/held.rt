// What a commit puts aside.
ghost use Rattle.std.specs.Prelude.{◌≡◌, ◌++◌, ◌∷◌, [], ◌<◌, ◌^◌, ◌≤◌, IfOk, OnOk, false, length};
ghost use Rattle.commit_plan.specs.Holding.{victims_at, victims_past};
ghost use Rattle.commit_run.specs.HeldFrom.{given_by, kinds_from};
ghost use Rattle.edit_words.specs.WellFormed.{max_changes};
ghost use Rattle.plan_fits.specs.HeldKinds.{numbered, shows_dir as shows_dir_of, with_kind};

use commit_states::Held;
use dired_text::{Memory, Path};
use edit_words::Row;
use std::alloc::Global;
use tree_core::{Kind, Shown};

/// What a commit puts aside, by line: a line's victim, which is no directory, before its source, whose kind the line shows.
pub(crate) fn held_by(
    alloc: Global,
    rows: &[Row],
    victims: &[(u32, Path)],
) -> Result<Vec<Held>, Memory>
    requires { length rows.now ≤ max_changes }
    ensures { IfOk result (λ v. v.items ≡ numbered 0 (kinds_from victims.now rows.now)) }
{
    let mut held = Vec::new(alloc);
    let mut rest = victims;
    for row in rows {
        rest = add_victim(&mut held, row.line, rest)?;
        add_given_up(&mut held, row)?;
    }
    Ok(held)
}

// Adds the victim of a line, if it is the first of these, and gives the others.
fn add_victim<'a>(
    held: &mut Vec<Held>,
    line: u32,
    victims: &'a [(u32, Path)],
) -> Result<&'a [(u32, Path)], Memory>
    requires { length held.old.items < 2 ^ 32 }
    ensures held { OnOk result (held.new.items ≡ held.old.items
        ++ numbered (length held.old.items) (with_kind false (victims_at line victims.now))) }
    ensures rest { IfOk result (λ rest. rest.now ≡ victims_past line victims.now) }
{
    match victims {
        [(first, _), rest @ ..] if *first == line => {
            add(held, false)?;
            Ok(rest)
        }
        _ => Ok(victims),
    }
}

// Adds the source of a row that is given up.
fn add_given_up(held: &mut Vec<Held>, row: &Row) -> Result<(), Memory>
    requires { length held.old.items < 2 ^ 32 }
    ensures { OnOk result (held.new.items ≡ held.old.items
        ++ numbered (length held.old.items) (given_by row.now)) }
{
    match &row.source {
        Some(_) if row.retargets || row.removes => add(held, shows_dir(&row.was)),
        _ => Ok(()),
    }
}

// Adds an entry under the next number.
fn add(held: &mut Vec<Held>, is_dir: bool) -> Result<(), Memory>
    requires { length held.old.items < 2 ^ 32 }
    ensures { OnOk result (held.new.items ≡ held.old.items
        ++ record { number = length held.old.items; is_dir = is_dir } ∷ []) }
{
    let number = held.len() as u32;
    held.push(Held { number, is_dir })?;
    Ok(())
}

fn shows_dir(was: &Option<Shown>) -> bool
    ensures { result ≡ shows_dir_of was.now }
{
    match was {
        Some(was) => was.kind == Kind::Dir,
        None => false,
    }
}
