// The way back of a commit whose journal stands.
ghost use Rattle.std.specs.Prelude.{◌≡◌, ◌≤◌, ◌<◌, ◌+◌, ◌^◌, IfOk, Some, is_some, length};
ghost use Rattle.std.specs.FinMap.{get};
ghost use Rattle.commit_run.specs.BeforePlan.{removed_at, standing_removed, unstaged_all, unstaging, way_before};
ghost use Rattle.commit_run.specs.Preparing.{IsPrepared};
ghost use Rattle.commit_run.specs.WayBack.{marked_cut, turn_cut, turned_marker, undone_group, undone_groups, way_back, way_from};
ghost use Rattle.step_looks.specs.Undoing.{RanOrLooked};
ghost use Rattle.step_trees.specs.Groups.{groups};
ghost use Rattle.tree_core.specs.Faults.{NamesFault};
ghost use Rattle.tree_core.specs.History.{current_tree};
ghost use Rattle.tree_core.specs.Looks.{OnlyLooked, failed_in};
ghost use Rattle.tree_core.specs.Runs.{CanAll};

use crate::prepared::Prepared;
use commit_calls::{end_back, remove, remove_dir, rename_and_sync, sync, sync_and_rename};
use dired_text::{Failed, Path};
use step_looks::{any_done, undo_done};
use tree_core::{CallName, Tree};

/// Goes back where `plan` stands, and a call of this group failed. The number of groups stands for the seal. Behind it the old tree
/// stands, and nothing is pending.
pub(crate) fn back_from<T: Tree>(
    tree: &mut T,
    prepared: &Prepared,
    group: usize,
) -> Result<(), CallName>
    requires prepared { IsPrepared prepared.now }
    requires group { group ≤ length (groups prepared.now.steps) }
    requires can { T.Tells → CanAll
        (way_back prepared.now.steps prepared.now.fresh.items group (T.history tree.old))
        (T.history tree.old) }
    ensures ran { T.Tells → RanOrLooked
        (way_back prepared.now.steps prepared.now.fresh.items group (T.history tree.old))
        (T.history tree.old) (T.history tree.new)
        (T.before_failed tree.old) (T.before_failed tree.new) result }
    ensures cause { NamesFault (T.faults tree.old) (T.faults tree.new) result }
{
    sync(tree)?;
    let cut = marker_of(tree, prepared, group)?;
    back_from_cut(tree, prepared, cut)
}

/// Goes back where a call before the groups failed: as [`back_from`] where `plan` stands, and else what stands in the staging directory is
/// removed. Behind it the old tree stands, and nothing is pending.
pub(crate) fn back_before_groups<T: Tree>(tree: &mut T, prepared: &Prepared) -> Result<(), CallName>
    requires prepared { IsPrepared prepared.now }
    requires can { T.Tells → CanAll
        (way_before prepared.now.steps prepared.now.fresh.items (T.history tree.old))
        (T.history tree.old) }
    ensures ran { T.Tells → RanOrLooked
        (way_before prepared.now.steps prepared.now.fresh.items (T.history tree.old))
        (T.history tree.old) (T.history tree.new)
        (T.before_failed tree.old) (T.before_failed tree.new) result }
    ensures cause { NamesFault (T.faults tree.old) (T.faults tree.new) result }
{
    if stands(tree, &prepared.paths.plan)? {
        back_from(tree, prepared, 0)
    } else {
        unstage_standing(tree, prepared)
    }
}

// Removes the staging directory, if it stands, with what stands in it.
fn unstage_standing<T: Tree>(tree: &mut T, prepared: &Prepared) -> Result<(), CallName>
    requires prepared { IsPrepared prepared.now }
    requires can { T.Tells → CanAll
        (unstaging (length prepared.now.fresh.items) (current_tree (T.history tree.old)))
        (T.history tree.old) }
    ensures ran { T.Tells → RanOrLooked
        (unstaging (length prepared.now.fresh.items) (current_tree (T.history tree.old)))
        (T.history tree.old) (T.history tree.new)
        (T.before_failed tree.old) (T.before_failed tree.new) result }
    ensures cause { NamesFault (T.faults tree.old) (T.faults tree.new) result }
{
    if stands(tree, &prepared.paths.staging)? {
        unstage_all(tree, prepared)
    } else {
        sync(tree)
    }
}

// Removes what stands in the staging directory, and then that.
fn unstage_all<T: Tree>(tree: &mut T, prepared: &Prepared) -> Result<(), CallName>
    requires prepared { IsPrepared prepared.now }
    requires can { T.Tells → CanAll
        (unstaged_all (length prepared.now.fresh.items) (current_tree (T.history tree.old)))
        (T.history tree.old) }
    ensures ran { T.Tells → RanOrLooked
        (unstaged_all (length prepared.now.fresh.items) (current_tree (T.history tree.old)))
        (T.history tree.old) (T.history tree.new)
        (T.before_failed tree.old) (T.before_failed tree.new) result }
    ensures cause { NamesFault (T.faults tree.old) (T.faults tree.new) result }
{
    remove_standing(tree, &prepared.early)?;
    remove_dir(tree, &prepared.paths.staging)?;
    sync(tree)
}

// Removes those of these that stand.
fn remove_standing<T: Tree>(tree: &mut T, paths: &[Path]) -> Result<(), CallName>
    requires can { T.Tells → CanAll
        (standing_removed paths.now (current_tree (T.history tree.old))) (T.history tree.old) }
    ensures ran { T.Tells → RanOrLooked
        (standing_removed paths.now (current_tree (T.history tree.old)))
        (T.history tree.old) (T.history tree.new)
        (T.before_failed tree.old) (T.before_failed tree.new) result }
    ensures cause { NamesFault (T.faults tree.old) (T.faults tree.new) result }
{
    for path in paths {
        remove_if_standing(tree, path)?;
    }
    Ok(())
}

fn remove_if_standing<T: Tree>(tree: &mut T, path: &Path) -> Result<(), CallName>
    requires can { T.Tells → CanAll
        (removed_at path.now (current_tree (T.history tree.old))) (T.history tree.old) }
    ensures ran { T.Tells → RanOrLooked (removed_at path.now (current_tree (T.history tree.old)))
        (T.history tree.old) (T.history tree.new)
        (T.before_failed tree.old) (T.before_failed tree.new) result }
    ensures cause { NamesFault (T.faults tree.old) (T.faults tree.new) result }
{
    if stands(tree, path)? {
        remove(tree, path)
    } else {
        Ok(())
    }
}

/// Whether something stands at a path.
pub(crate) fn stands<T: Tree>(tree: &mut T, path: &Path) -> Result<bool, CallName>
    ensures stands { T.Tells → IfOk result
        (λ stands. stands ≡ is_some (get (current_tree (T.history tree.old)) path.now)) }
    ensures looked { T.Tells → OnlyLooked (failed_in (λ call. Some call) result)
        (T.history tree.old) (T.history tree.new) (T.fields tree.old) (T.fields tree.new)
        (T.before_failed tree.old) (T.before_failed tree.new) }
    ensures cause { NamesFault (T.faults tree.old) (T.faults tree.new) result }
{
    match tree.kind(path) {
        Ok(kind) => Ok(kind.is_some()),
        Err(Failed) => Err(CallName::Kind),
    }
}

// The number of the cut at which the marker stands.
fn marker_of<T: Tree>(tree: &mut T, prepared: &Prepared, group: usize) -> Result<usize, CallName>
    requires prepared { IsPrepared prepared.now }
    requires group { group ≤ length (groups prepared.now.steps) }
    ensures cut { T.Tells → IfOk result
        (λ k. k ≡ marked_cut prepared.now.steps group (current_tree (T.history tree.old))) }
    ensures within { IfOk result (λ k. k ≤ length (groups prepared.now.steps)) }
    ensures looked { T.Tells → OnlyLooked (failed_in (λ call. Some call) result)
        (T.history tree.old) (T.history tree.new) (T.fields tree.old) (T.fields tree.new)
        (T.before_failed tree.old) (T.before_failed tree.new) }
    ensures cause { NamesFault (T.faults tree.old) (T.faults tree.new) result }
{
    if group == prepared.last_cut() {
        return Ok(group);
    }
    if stands(tree, prepared.at_marker(group))? {
        Ok(group)
    } else {
        Ok(group + 1)
    }
}

// Goes back from the marker at this cut.
fn back_from_cut<T: Tree>(tree: &mut T, prepared: &Prepared, cut: usize) -> Result<(), CallName>
    requires prepared { IsPrepared prepared.now }
    requires cut { cut ≤ length (groups prepared.now.steps) }
    requires can { T.Tells → CanAll
        (way_from prepared.now.steps prepared.now.fresh.items cut (T.history tree.old))
        (T.history tree.old) }
    ensures ran { T.Tells → RanOrLooked
        (way_from prepared.now.steps prepared.now.fresh.items cut (T.history tree.old))
        (T.history tree.old) (T.history tree.new)
        (T.before_failed tree.old) (T.before_failed tree.new) result }
    ensures cause { NamesFault (T.faults tree.old) (T.faults tree.new) result }
{
    let from = turn(tree, prepared, cut)?;
    undo_groups(tree, prepared, from)?;
    end_back(
        tree,
        &prepared.fresh,
        &prepared.fresh_paths,
        prepared.back_marker(0),
        &prepared.paths,
    )
}

// Turns the marker round, and gives the number of the cut at which it stands then.
fn turn<T: Tree>(tree: &mut T, prepared: &Prepared, cut: usize) -> Result<usize, CallName>
    requires prepared { IsPrepared prepared.now }
    requires cut { cut ≤ length (groups prepared.now.steps) }
    requires can { T.Tells → CanAll
        (turned_marker prepared.now.steps cut (current_tree (T.history tree.old)))
        (T.history tree.old) }
    ensures ran { T.Tells → RanOrLooked
        (turned_marker prepared.now.steps cut (current_tree (T.history tree.old)))
        (T.history tree.old) (T.history tree.new)
        (T.before_failed tree.old) (T.before_failed tree.new) result }
    ensures from { T.Tells → IfOk result
        (λ k. k ≡ turn_cut prepared.now.steps cut (current_tree (T.history tree.old))) }
    ensures within { IfOk result (λ k. k ≤ length (groups prepared.now.steps)) }
    ensures cause { NamesFault (T.faults tree.old) (T.faults tree.new) result }
{
    let from = turning_cut(tree, prepared, cut)?;
    rename_and_sync(tree, prepared.at_marker(cut), prepared.back_marker(from))?;
    Ok(from)
}

// The number of the cut at which the marker turns round.
fn turning_cut<T: Tree>(tree: &mut T, prepared: &Prepared, cut: usize) -> Result<usize, CallName>
    requires prepared { IsPrepared prepared.now }
    requires cut { cut ≤ length (groups prepared.now.steps) }
    ensures from { T.Tells → IfOk result
        (λ k. k ≡ turn_cut prepared.now.steps cut (current_tree (T.history tree.old))) }
    ensures within { IfOk result (λ k. k ≤ length (groups prepared.now.steps)) }
    ensures looked { T.Tells → OnlyLooked (failed_in (λ call. Some call) result)
        (T.history tree.old) (T.history tree.new) (T.fields tree.old) (T.fields tree.new)
        (T.before_failed tree.old) (T.before_failed tree.new) }
    ensures cause { NamesFault (T.faults tree.old) (T.faults tree.new) result }
{
    if cut == prepared.last_cut() {
        return Ok(cut);
    }
    if any_done(tree, prepared.group(cut), prepared.group_parents(cut))? {
        Ok(cut + 1)
    } else {
        Ok(cut)
    }
}

// Undoes what was done of the groups before this cut, the last one first.
fn undo_groups<T: Tree>(tree: &mut T, prepared: &Prepared, from: usize) -> Result<(), CallName>
    requires prepared { IsPrepared prepared.now }
    requires from { from ≤ length (groups prepared.now.steps) }
    requires can { T.Tells → CanAll
        (undone_groups prepared.now.steps from (T.history tree.old)) (T.history tree.old) }
    ensures ran { T.Tells → RanOrLooked (undone_groups prepared.now.steps from (T.history tree.old))
        (T.history tree.old) (T.history tree.new)
        (T.before_failed tree.old) (T.before_failed tree.new) result }
    ensures cause { NamesFault (T.faults tree.old) (T.faults tree.new) result }
{
    for k in (0..from).rev() {
        undo_one_group(tree, prepared, k)?;
    }
    Ok(())
}

// Undoes what was done of a group, and moves the marker to its cut.
fn undo_one_group<T: Tree>(tree: &mut T, prepared: &Prepared, k: usize) -> Result<(), CallName>
    requires prepared { IsPrepared prepared.now }
    requires group { k < length (groups prepared.now.steps) }
    requires small { k + 1 < 2 ^ 64 }
    requires can { T.Tells → CanAll
        (undone_group prepared.now.steps k (current_tree (T.history tree.old)))
        (T.history tree.old) }
    ensures ran { T.Tells → RanOrLooked
        (undone_group prepared.now.steps k (current_tree (T.history tree.old)))
        (T.history tree.old) (T.history tree.new)
        (T.before_failed tree.old) (T.before_failed tree.new) result }
    ensures cause { NamesFault (T.faults tree.old) (T.faults tree.new) result }
{
    undo_done(tree, prepared.group(k), prepared.group_parents(k))?;
    sync_and_rename(tree, prepared.back_marker(k + 1), prepared.back_marker(k))
}
