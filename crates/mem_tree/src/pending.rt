// Which calls are pending: those done since the last sync that was done.
ghost use Rattle.std.specs.Prelude.{◌≡◌, OnOk, IfOk, if◌then◌else◌, [], map};
ghost use Rattle.tree_core.specs.History.{is_sync as is_sync_of, torn_call};
ghost use Rattle.mem_tree.specs.Records.{is_done_sync as is_done_sync_of, pending_with};
ghost use Rattle.mem_tree.specs.Images.{emptied as emptied_of};

use crate::attempt::Attempt;
use dired_text::{Bytes, Memory};
use std::alloc::Global;
use tree_core::Change;

fn is_sync(change: &Change) -> bool
    ensures { result ≡ is_sync_of change.now }
{
    matches!(change, Change::Sync)
}

// Whether it is a sync that was done, though it may have failed.
fn is_done_sync(attempt: &Attempt) -> bool
    ensures { result ≡ is_done_sync_of attempt.now }
{
    attempt.is_done && is_sync(&attempt.change)
}

/// How many calls came before the last sync, by that of the calls before this one, whose place is given.
pub fn count_before_sync(attempt: &Attempt, place: usize, count: usize) -> usize
    ensures { result ≡ (if is_done_sync_of attempt.now then place else count) }
{
    if is_done_sync(attempt) { place } else { count }
}

/// Makes of the calls that were pending before a call those that are pending behind it.
pub fn note_pending(calls: &mut Vec<(u64, Change)>, attempt: &Attempt) -> Result<(), Memory>
    ensures { OnOk result (calls.new.items ≡ pending_with attempt.now calls.old.items) }
{
    if !attempt.is_done {
        return Ok(());
    }
    if is_sync(&attempt.change) {
        calls.clear();
        return Ok(());
    }
    calls.push((attempt.number, attempt.change.copy()?))?;
    Ok(())
}

// The call, but an empty file where it writes one.
fn torn(alloc: Global, change: &Change) -> Result<Change, Memory>
    ensures { IfOk result (λ c. c ≡ torn_call change.now []) }
{
    match change {
        Change::WriteFile(path, _, mode) => Ok(Change::WriteFile(
            path.copy()?,
            Bytes::from_vec(Vec::new(alloc)),
            *mode,
        )),
        _ => change.copy(),
    }
}

/// The calls, but with empty files.
pub fn emptied(alloc: Global, calls: &[(u64, Change)]) -> Result<Vec<(u64, Change)>, Memory>
    ensures { IfOk result (λ v. v.items ≡ map emptied_of calls.now) }
{
    let mut empty = Vec::with_capacity(alloc, calls.len())?;
    for call in calls {
        empty.push((call.0, torn(alloc, &call.1)?))?;
    }
    Ok(empty)
}
