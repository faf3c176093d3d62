// The changes of a plan, and where they stand while it is made.
ghost use Rattle.std.specs.Prelude.{◌≡◌, ◌<◌, ◌≤◌, IfOk, length, true};
ghost use Rattle.edit_words.specs.Edited.{is_fresh as is_fresh_row};
ghost use Rattle.edit_words.specs.Rows.{written as written_path};
ghost use Rattle.commit_steps.specs.Staging.{staged, temporary};
ghost use Rattle.commit_plan.specs.Stands.{IsCarried, IsPutAway, WaitsAtSource, first_changes, first_stand as first_stand_of, is_ready_at, max_rows};

use crate::names::{Entry, entry_path};
use commit_steps::Step;
use dired_text::{Memory, Path};
use edit_words::Row;
use std::alloc::Global;
use std::mem;

/// Where a change stands.
#[derive(Drop)]
pub enum Stand {
    /// It waits for nothing.
    Left,
    /// It waits: whether in the staging directory, its path now, and its written path.
    Waits { away: bool, at: Path, to: Path },
}

/// A change, and where it stands.
#[derive(Drop)]
pub struct Change {
    pub row: Row,
    pub stand: Stand,
}

/// The changes, each where it stands at first.
pub fn changes_of(alloc: Global, rows: Vec<Row>) -> Result<Vec<Change>, Memory>
    requires { length rows.items ≤ max_rows }
    ensures { IfOk result (λ v. v.items ≡ first_changes 0 rows.items) }
{
    let mut changes = Vec::with_capacity(alloc, rows.len())?;
    let mut fresh = 0;
    for row in rows {
        let stand = first_stand(alloc, &row, fresh)?;
        if is_fresh(&row) {
            fresh += 1;
        }
        changes.push(Change { row, stand })?;
    }
    Ok(changes)
}

// Where a change stands at first, where `fresh` is the number of the next entry that is made.
fn first_stand(alloc: Global, row: &Row, fresh: u32) -> Result<Stand, Memory>
    ensures { IfOk result (λ s. s ≡ first_stand_of fresh row.now) }
{
    if is_fresh(row) {
        let at = entry_path(alloc, Entry::Fresh, fresh)?;
        let to = written(alloc, row)?;
        return Ok(Stand::Waits { away: true, at, to });
    }
    match (&row.source, &row.to) {
        (Some(source), Some(to)) => Ok(Stand::Waits {
            away: false,
            at: source.copy()?,
            to: to.copy()?,
        }),
        _ => Ok(Stand::Left),
    }
}

// A retargeted link, or a creation.
fn is_fresh(row: &Row) -> bool
    ensures { result ≡ is_fresh_row row.now }
{
    row.retargets || row.source.is_none()
}

// The written path: the new path, or the source where there is none.
fn written(alloc: Global, row: &Row) -> Result<Path, Memory>
    ensures { IfOk result (λ p. p ≡ written_path row.now) }
{
    match (&row.to, &row.source) {
        (Some(path), _) | (None, Some(path)) => path.copy(),
        (None, None) => Ok(Path::root(alloc)),
    }
}

/// Carries out a ready change.
pub fn carry(changes: &mut Vec<Change>, i: usize) -> Step
    requires within { i < length changes.old.items }
    requires ready { is_ready_at changes.old.items i ≡ true }
    ensures { IsCarried changes.old.items i changes.new.items result }
{
    match mem::replace(&mut changes[i].stand, Stand::Left) {
        Stand::Waits { at, to, .. } => Step::Rename(at, to),
        Stand::Left => unreachable!(),
    }
}

/// Puts a change that waits at its source into the staging directory.
pub fn put_away(
    alloc: Global,
    changes: &mut Vec<Change>,
    i: usize,
    number: u32,
) -> Result<Step, Memory>
    requires within { i < length changes.old.items }
    requires waits { WaitsAtSource changes.old.items i }
    ensures { IfOk result
        (IsPutAway changes.old.items i (staged (temporary number)) changes.new.items) }
{
    let spot = entry_path(alloc, Entry::Temporary, number)?;
    let to_spot = spot.copy()?;
    match mem::replace(&mut changes[i].stand, Stand::Left) {
        Stand::Waits { at, to, .. } => {
            changes[i].stand = Stand::Waits {
                away: true,
                at: spot,
                to,
            };
            Ok(Step::Rename(at, to_spot))
        }
        Stand::Left => unreachable!(),
    }
}
