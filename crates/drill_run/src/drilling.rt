// A drill.
ghost use Rattle.std.specs.Prelude.{◌≡◌, ◌≤◌, IfErr, IfOk, OnOk};
ghost use Rattle.tree_core.specs.History.{current_tree, IsDurable};
ghost use Rattle.tree_core.specs.Looks.{failed_in, faults_with};
ghost use Rattle.edit_check.specs.StandFor.{StandsFor, changes_in};
ghost use Rattle.commit_run.specs.declared.end.CommitEnd.TheVariants as commit_end;
ghost use Rattle.drill_tree.specs.Drill.{IsDrillTree, drill_edits as drill_edits_of};
ghost use Rattle.drill_run.specs.Drills.{IsDrilled, NamesFaults};
ghost use Rattle.drill_run.specs.Ends.{IsEndOf, IsOfLook, failed_look};

use crate::counting::{counts, entries_left};
use crate::{DrillCounts, DrillEnd};
use commit_run::{CommitEnd, commit};
use drill_tree::drill_edits;
use edit_check::{Checked, check};
use std::alloc::Global;
use tree_core::{Confirmed, Items, Tree};

/// Commits the edits of a drill of so many groups, all of them confirmed, and counts what was done. The tree is that of the drill, and
/// nothing is pending in it; a tree that can be looked at tells its content.
///
/// # Errors
/// `Look` and `Commit` come only where a call of the tree failed. At want of memory and at a failed look the edits were all
/// committed, or none of them is done.
pub fn drill_commit<T: Tree>(
    alloc: Global,
    tree: &mut T,
    groups: u32,
) -> Result<DrillCounts, DrillEnd>
    requires some { 1 ≤ groups }
    requires few { groups ≤ 20000 }
    requires told { T.Tells }
    requires drill { IsDrillTree groups (current_tree (T.history tree.old)) }
    requires durable { IsDurable (T.history tree.old) }
    ensures drilled { IsDrilled groups
        (T.history tree.old) (T.history tree.new) (T.before_failed tree.new) result }
    ensures faults { NamesFaults (T.faults tree.old) (T.faults tree.new) result }
{
    let checked = checked(alloc, tree, groups)?;
    let mut counts = counts(alloc, groups, &checked)?;
    ended(commit(alloc, tree, checked))?;
    counts.left = entries_left(alloc, tree)?;
    Ok(counts)
}

// The check of the edits of a drill.
fn checked<T: Tree>(alloc: Global, tree: &mut T, groups: u32) -> Result<Checked, DrillEnd>
    requires few { groups ≤ 20000 }
    requires told { T.Tells }
    ensures changes { IfOk result (λ c. changes_in c ≡ drill_edits_of groups) }
    ensures stands { IfOk result (λ c. StandsFor c (current_tree (T.history tree.old))) }
    ensures history { T.history tree.new ≡ T.history tree.old }
    ensures faults { T.faults tree.new ≡ faults_with (failed_in failed_look result)
        (T.faults tree.old) }
    ensures end { IfErr result IsOfLook }
{
    let changes = drill_edits(alloc, groups)?;
    let all = Confirmed {
        all: true,
        paths: Items::from_vec(Vec::new(alloc)),
    };
    Ok(check(alloc, tree, changes, &all)?)
}

// How a drill goes on behind its commit.
fn ended(end: CommitEnd) -> Result<(), DrillEnd>
    ensures done { OnOk result (end ≡ commit_end.Done) }
    ensures failed { IfErr result (IsEndOf end) }
{
    match end {
        CommitEnd::Done => Ok(()),
        CommitEnd::Memory => Err(DrillEnd::Memory),
        CommitEnd::TreeFault { .. }
        | CommitEnd::RolledBack { .. }
        | CommitEnd::Unfinished { .. }
        | CommitEnd::Unclean { .. } => Err(DrillEnd::Commit(end)),
    }
}
