// The staging directory, cleared: behind the seal, and at the end of a way back.
ghost use Rattle.std.specs.Prelude.{◌≡◌, [], ◌∷◌, length};
ghost use Rattle.tree_core.specs.FileTree.{CanDo};
ghost use Rattle.tree_core.specs.History.{current_tree};
ghost use Rattle.tree_core.specs.Runs.{CanAll, Ran};
ghost use Rattle.tree_core.specs.Faults.{NamesFault};
ghost use Rattle.commit_steps.specs.Staging.{staged, at_marker, back_marker};
ghost use Rattle.commit_states.specs.Calls.{removal_by, removals_by, held_items, cleaning_calls, clearing_calls, end_calls};
ghost use Rattle.commit_calls.specs.Parts.{remove_calls, close_up_calls};
ghost use Rattle.commit_calls.specs.Paths.{ArePaths, fresh_entry_paths, held_entry_paths};

use crate::calls::{remove, remove_dir, rename_and_sync, sync};
use crate::paths::StagingPaths;
use commit_states::Held;
use dired_text::Path;
use tree_core::{CallName, Fresh, Tree};

// Removes what was put aside at a path.
fn discard<T: Tree>(tree: &mut T, path: &Path, is_dir: bool) -> Result<(), CallName>
    requires can { T.Tells → CanDo (removal_by is_dir path.now)
        (current_tree (T.history tree.old)) }
    ensures ran { T.Tells → Ran (removal_by is_dir path.now ∷ []) (T.history tree.old)
        (T.history tree.new) (T.before_failed tree.old) (T.before_failed tree.new) result }
    ensures cause { NamesFault (T.faults tree.old) (T.faults tree.new) result }
{
    if is_dir {
        remove_dir(tree, path)
    } else {
        remove(tree, path)
    }
}

// Removes all that was put aside, in order.
fn discard_all<T: Tree>(tree: &mut T, held: &[Held], paths: &[Path]) -> Result<(), CallName>
    requires paths { paths.now ≡ held_entry_paths held.now }
    requires can { T.Tells → CanAll (removals_by (held_items held.now)) (T.history tree.old) }
    ensures ran { T.Tells → Ran (removals_by (held_items held.now)) (T.history tree.old)
        (T.history tree.new) (T.before_failed tree.old) (T.before_failed tree.new) result }
    ensures cause { NamesFault (T.faults tree.old) (T.faults tree.new) result }
{
    for (k, one) in held.iter().enumerate() {
        discard(tree, &paths[k], one.is_dir)?;
    }
    Ok(())
}

// Removes these files and links, in order.
pub(crate) fn remove_all<T: Tree>(tree: &mut T, paths: &[Path]) -> Result<(), CallName>
    requires can { T.Tells → CanAll (remove_calls paths.now) (T.history tree.old) }
    ensures ran { T.Tells → Ran (remove_calls paths.now) (T.history tree.old) (T.history tree.new)
        (T.before_failed tree.old) (T.before_failed tree.new) result }
    ensures cause { NamesFault (T.faults tree.old) (T.faults tree.new) result }
{
    for path in paths {
        remove(tree, path)?;
    }
    Ok(())
}

// Removes the marker, and when that is durable the journal and the staging directory.
fn close_up<T: Tree>(
    tree: &mut T,
    marker: &Path,
    journal: &Path,
    directory: &Path,
) -> Result<(), CallName>
    requires can { T.Tells → CanAll (close_up_calls marker.now journal.now directory.now)
        (T.history tree.old) }
    ensures ran { T.Tells → Ran (close_up_calls marker.now journal.now directory.now)
        (T.history tree.old) (T.history tree.new) (T.before_failed tree.old)
        (T.before_failed tree.new) result }
    ensures cause { NamesFault (T.faults tree.old) (T.faults tree.new) result }
{
    remove(tree, marker)?;
    sync(tree)?;
    remove(tree, journal)?;
    remove_dir(tree, directory)?;
    sync(tree)
}

/// Clears the staging directory behind the seal of a commit of so many steps: what was put aside and the marker, and when that is
/// durable the journal and the directory.
pub fn clean<T: Tree>(
    tree: &mut T,
    held: &[Held],
    held_paths: &[Path],
    marker: &Path,
    paths: &StagingPaths,
    steps: usize,
) -> Result<(), CallName>
    requires paths { ArePaths paths.now }
    requires held_paths { held_paths.now ≡ held_entry_paths held.now }
    requires marker { marker.now ≡ staged (at_marker steps) }
    requires can { T.Tells → CanAll (cleaning_calls held.now steps) (T.history tree.old) }
    ensures ran { T.Tells → Ran (cleaning_calls held.now steps) (T.history tree.old)
        (T.history tree.new) (T.before_failed tree.old) (T.before_failed tree.new) result }
    ensures cause { NamesFault (T.faults tree.old) (T.faults tree.new) result }
{
    discard_all(tree, held, held_paths)?;
    close_up(tree, marker, &paths.sealed, &paths.staging)
}

/// Clears the staging directory at the end of a way back: the fresh entries and the marker, and when that is durable the journal and
/// the directory.
pub fn clear<T: Tree>(
    tree: &mut T,
    fresh: &[Fresh],
    fresh_paths: &[Path],
    marker: &Path,
    paths: &StagingPaths,
) -> Result<(), CallName>
    requires paths { ArePaths paths.now }
    requires fresh_paths { fresh_paths.now ≡ fresh_entry_paths (length fresh.now) }
    requires marker { marker.now ≡ staged (back_marker 0) }
    requires can { T.Tells → CanAll (clearing_calls fresh.now) (T.history tree.old) }
    ensures ran { T.Tells → Ran (clearing_calls fresh.now) (T.history tree.old) (T.history tree.new)
        (T.before_failed tree.old) (T.before_failed tree.new) result }
    ensures cause { NamesFault (T.faults tree.old) (T.faults tree.new) result }
{
    remove_all(tree, fresh_paths)?;
    close_up(tree, marker, &paths.undone, &paths.staging)
}

/// Ends a way back: the journal gets its last name, and then the staging directory is cleared.
pub fn end_back<T: Tree>(
    tree: &mut T,
    fresh: &[Fresh],
    fresh_paths: &[Path],
    marker: &Path,
    paths: &StagingPaths,
) -> Result<(), CallName>
    requires paths { ArePaths paths.now }
    requires fresh_paths { fresh_paths.now ≡ fresh_entry_paths (length fresh.now) }
    requires marker { marker.now ≡ staged (back_marker 0) }
    requires can { T.Tells → CanAll (end_calls fresh.now) (T.history tree.old) }
    ensures ran { T.Tells → Ran (end_calls fresh.now) (T.history tree.old) (T.history tree.new)
        (T.before_failed tree.old) (T.before_failed tree.new) result }
    ensures cause { NamesFault (T.faults tree.old) (T.faults tree.new) result }
{
    rename_and_sync(tree, &paths.plan, &paths.undone)?;
    clear(tree, fresh, fresh_paths, marker, paths)
}
