// The changes while a plan is made: each waits no longer, or is to be looked at, or is in the list of one that blocks it.
ghost use Rattle.std.specs.Prelude.{◌≡◌, ◌<◌, ◌≤◌, ◌∷◌, [], All, Contains, IfOk, IfSome, IfNone, List, ℕ, OnOk, length, true, false};
ghost use Rattle.dired_text.specs.Paths.{Names};
ghost use Rattle.commit_steps.specs.Staging.{staged, temporary};
ghost use Rattle.edit_words.specs.WellFormed.{IsNoRoot, LinesRise, SourcesDiffer};
ghost use Rattle.commit_plan.specs.Stands.{AreSpelled, IsPutAway, first_changes, max_rows};
ghost use Rattle.commit_plan.specs.Boards.{AreRooted, HasKeepers, HaveTurns, IsAtSource, IsBlocker, IsNoted, IsOutlook, IsReleased, IsRun, IsSettled, IsSound, IsUnblocked, NoneAtSource};

use crate::changes::{Change, Stand, carry, changes_of, put_away};
use crate::keepers::{Keepers, drop_departing, drop_put_away, keeper_below, keepers_of, source_at};
use commit_steps::Step;
use dired_text::{Memory, Path};
use edit_words::Row;
use std::alloc::Global;
use std::mem;

/// The changes, and who waits for whom.
#[derive(Drop)]
pub struct Board {
    pub changes: Vec<Change>,
    pub keepers: Keepers,
    // by change, those that wait until it leaves its place
    pub awaiting: Vec<Vec<usize>>,
    // those to be looked at
    pub queue: Vec<usize>,
}

/// What a change may do.
pub enum Outlook {
    /// It waits for nothing.
    Done,
    /// It is ready.
    Free,
    /// It isn't ready as long as this one stays where it is.
    Awaits(usize),
}

impl Board {
    /// All changes, each to be looked at.
    pub fn new(alloc: Global, rows: Vec<Row>) -> Result<Self, Memory>
        requires few { length rows.items ≤ max_rows }
        requires lines { LinesRise rows.items }
        requires sources { SourcesDiffer rows.items }
        requires rooted { All IsNoRoot rows.items }
        ensures changes { IfOk result (λ b. b.changes.items ≡ first_changes 0 rows.items) }
        ensures sound { IfOk result (λ b. IsSound b) }
        ensures turns { IfOk result (λ b. HaveTurns b []) }
    {
        let changes = changes_of(alloc, rows)?;
        let keepers = keepers_of(alloc, &changes)?;
        let awaiting = no_lists(alloc, changes.len())?;
        let queue = numbers(alloc, changes.len())?;
        Ok(Board {
            changes,
            keepers,
            awaiting,
            queue,
        })
    }

    /// Carries out changes, until none is ready.
    pub fn carry_ready(&mut self, alloc: Global, steps: &mut Vec<Step>) -> Result<(), Memory>
        requires sound { IsSound self.old }
        requires turns { HaveTurns self.old [] }
        ensures sound { OnOk result (IsSound self.new) }
        ensures turns { OnOk result (HaveTurns self.new []) }
        ensures none { OnOk result (self.new.queue.items ≡ []) }
        ensures run { OnOk result
            (IsRun self.old.changes.items self.new.changes.items steps.old.items steps.new.items) }
    {
        while !self.queue.is_empty() {
            let queued = mem::replace(&mut self.queue, Vec::new(alloc));
            for i in queued {
                if let Some(step) = self.settle(i)? {
                    steps.push(step)?;
                }
            }
        }
        Ok(())
    }

    /// The change that waits at its source, which is this path.
    pub fn source_at(&self, path: &Path) -> Option<usize>
        requires { IsSound self.now }
        ensures some { IfSome result (λ i. IsAtSource self.now.changes.items i path.now) }
        ensures none { IfNone result (NoneAtSource self.now.changes.items path.now) }
    {
        source_at(&self.changes, &self.keepers, path)
    }

    /// Puts a change that waits at its source into the staging directory.
    pub fn put_away(&mut self, alloc: Global, i: usize, number: u32) -> Result<Step, Memory>
        requires sound { IsSound self.old }
        requires turns { HaveTurns self.old [] }
        requires waits { (p : Names) × IsAtSource self.old.changes.items i p }
        ensures sound { OnOk result (IsSound self.new) }
        ensures turns { OnOk result (HaveTurns self.new []) }
        ensures step { IfOk result
            (IsPutAway self.old.changes.items i
            (staged (temporary number)) self.new.changes.items) }
    {
        drop_put_away(&mut self.keepers, &self.changes[i].row);
        let step = put_away(alloc, &mut self.changes, i, number)?;
        self.queue.push(i)?;
        release(&mut self.awaiting, i, &mut self.queue)?;
        Ok(step)
    }

    // Carries out a change that is ready, and else puts it into the list of one that blocks it.
    fn settle(&mut self, i: usize) -> Result<Option<Step>, Memory>
        requires within { i < length self.old.changes.items }
        requires sound { IsSound self.old }
        ensures sound { OnOk result (IsSound self.new) }
        ensures turns { OnOk result ((rest : List ℕ) → HaveTurns self.old (i ∷ rest) →
            HaveTurns self.new rest) }
        ensures settled { IfOk result (IsSettled self.old i self.new) }
    {
        match look_at(&self.changes, &self.keepers, i) {
            Outlook::Done => Ok(None),
            Outlook::Awaits(j) => {
                note(&mut self.awaiting, j, i)?;
                Ok(None)
            }
            Outlook::Free => {
                drop_departing(&mut self.keepers, &self.changes[i]);
                let step = carry(&mut self.changes, i);
                release(&mut self.awaiting, i, &mut self.queue)?;
                Ok(Some(step))
            }
        }
    }
}

fn no_lists(alloc: Global, count: usize) -> Result<Vec<Vec<usize>>, Memory>
    ensures sized { IfOk result (λ v. length v.items ≡ count) }
    ensures empty { IfOk result (λ v. All (λ l. l.items ≡ []) v.items) }
{
    let mut lists = Vec::with_capacity(alloc, count)?;
    for _ in 0..count {
        lists.push(Vec::new(alloc))?;
    }
    Ok(lists)
}

// The numbers below a count.
fn numbers(alloc: Global, count: usize) -> Result<Vec<usize>, Memory>
    ensures all { IfOk result (λ v. (k : ℕ) → k < count → Contains v.items k) }
    ensures within { IfOk result (λ v. (k : ℕ) → Contains v.items k → k < count) }
{
    let mut all = Vec::with_capacity(alloc, count)?;
    for i in 0..count {
        all.push(i)?;
    }
    Ok(all)
}

// Puts a change into the list of another.
fn note(awaiting: &mut Vec<Vec<usize>>, j: usize, i: usize) -> Result<(), Memory>
    requires { j < length awaiting.old.items }
    ensures { OnOk result (IsNoted awaiting.old.items j i awaiting.new.items) }
{
    awaiting[j].push(i)?;
    Ok(())
}

// Queues those in the list of a change.
fn release(awaiting: &mut Vec<Vec<usize>>, i: usize, queue: &mut Vec<usize>) -> Result<(), Memory>
    requires { i < length awaiting.old.items }
    ensures { OnOk result
        (IsReleased awaiting.old.items i queue.old.items awaiting.new.items queue.new.items) }
{
    queue.append(&mut awaiting[i])?;
    Ok(())
}

// What a change may do.
fn look_at(changes: &[Change], keepers: &Keepers, i: usize) -> Outlook
    requires within { i < length changes.now }
    requires spelled { AreSpelled changes.now }
    requires rooted { AreRooted changes.now }
    requires keepers { HasKeepers changes.now keepers.now }
    ensures { IsOutlook changes.now i result }
{
    match &changes[i].stand {
        Stand::Left => Outlook::Done,
        Stand::Waits { away, at, to } => match blocker(changes, keepers, *away, at, to) {
            Some(j) => Outlook::Awaits(j),
            None => Outlook::Free,
        },
    }
}

// A change that blocks one which waits so.
fn blocker(changes: &[Change], keepers: &Keepers, away: bool, at: &Path, to: &Path) -> Option<usize>
    requires rooted { AreRooted changes.now }
    requires keepers { HasKeepers changes.now keepers.now }
    ensures some { IfSome result (λ j. IsBlocker changes.now j away at.now to.now) }
    ensures none { IfNone result (IsUnblocked changes.now away at.now to.now) }
{
    match source_at(changes, keepers, to) {
        Some(j) => Some(j),
        None if away => None,
        None => keeper_below(keepers, at),
    }
}
