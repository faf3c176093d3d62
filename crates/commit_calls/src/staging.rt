// The staging directory, made and filled.
ghost use Rattle.std.specs.Prelude.{◌≡◌, [], ◌∷◌, length};
ghost use Rattle.tree_core.specs.declared.node.Change.{Change};
ghost use Rattle.tree_core.specs.FileTree.{CanDo};
ghost use Rattle.tree_core.specs.History.{current_tree};
ghost use Rattle.tree_core.specs.Runs.{CanAll, Ran};
ghost use Rattle.tree_core.specs.Faults.{NamesFault};
ghost use Rattle.commit_steps.specs.Staging.{staged, at_marker};
ghost use Rattle.commit_states.specs.Calls.{fresh_call, fresh_calls, stage_calls, plan_calls, staging_calls};
ghost use Rattle.commit_calls.specs.Parts.{open_calls};
ghost use Rattle.commit_calls.specs.Paths.{ArePaths, fresh_entry_paths};

use crate::calls::{make_dir, make_hard, make_link, sync_and_rename, write_file};
use crate::paths::StagingPaths;
use dired_text::Path;
use tree_core::{CallName, Fresh, Tree};

// Makes one fresh entry.
fn make_fresh<T: Tree>(tree: &mut T, path: &Path, what: &Fresh) -> Result<(), CallName>
    requires can { T.Tells → CanDo (fresh_call path.now what.now)
        (current_tree (T.history tree.old)) }
    ensures ran { T.Tells → Ran (fresh_call path.now what.now ∷ []) (T.history tree.old)
        (T.history tree.new) (T.before_failed tree.old) (T.before_failed tree.new) result }
    ensures cause { NamesFault (T.faults tree.old) (T.faults tree.new) result }
{
    match what {
        Fresh::Link(target) => make_link(tree, path, target.as_str()),
        Fresh::File(bytes, mode) => write_file(tree, path, bytes.as_slice(), *mode),
        Fresh::Same(old) => make_hard(tree, path, old),
    }
}

// Makes the fresh entries in order.
fn make_entries<T: Tree>(tree: &mut T, fresh: &[Fresh], paths: &[Path]) -> Result<(), CallName>
    requires paths { paths.now ≡ fresh_entry_paths (length fresh.now) }
    requires can { T.Tells → CanAll (fresh_calls 0 fresh.now) (T.history tree.old) }
    ensures ran { T.Tells → Ran (fresh_calls 0 fresh.now) (T.history tree.old) (T.history tree.new)
        (T.before_failed tree.old) (T.before_failed tree.new) result }
    ensures cause { NamesFault (T.faults tree.old) (T.faults tree.new) result }
{
    for (k, what) in fresh.iter().enumerate() {
        make_fresh(tree, &paths[k], what)?;
    }
    Ok(())
}

// Makes the staging directory and what stands in it before the journal.
fn open<T: Tree>(
    tree: &mut T,
    fresh: &[Fresh],
    directory: &Path,
    fresh_paths: &[Path],
    marker: &Path,
) -> Result<(), CallName>
    requires paths { fresh_paths.now ≡ fresh_entry_paths (length fresh.now) }
    requires can { T.Tells → CanAll (open_calls directory.now marker.now fresh.now)
        (T.history tree.old) }
    ensures ran { T.Tells → Ran (open_calls directory.now marker.now fresh.now) (T.history tree.old)
        (T.history tree.new) (T.before_failed tree.old) (T.before_failed tree.new) result }
    ensures cause { NamesFault (T.faults tree.old) (T.faults tree.new) result }
{
    make_dir(tree, directory, 0o700)?;
    write_file(tree, marker, b"", 0o600)?;
    make_entries(tree, fresh, fresh_paths)
}

/// Makes the staging directory, its first marker, the fresh entries and the journal, which has no name yet by which it is found.
pub fn fill<T: Tree>(
    tree: &mut T,
    fresh: &[Fresh],
    journal: &[u8],
    paths: &StagingPaths,
    fresh_paths: &[Path],
    marker: &Path,
) -> Result<(), CallName>
    requires paths { ArePaths paths.now }
    requires fresh_paths { fresh_paths.now ≡ fresh_entry_paths (length fresh.now) }
    requires marker { marker.now ≡ staged (at_marker 0) }
    requires can { T.Tells → CanAll (stage_calls fresh.now journal.now) (T.history tree.old) }
    ensures ran { T.Tells → Ran (stage_calls fresh.now journal.now) (T.history tree.old)
        (T.history tree.new) (T.before_failed tree.old) (T.before_failed tree.new) result }
    ensures cause { NamesFault (T.faults tree.old) (T.faults tree.new) result }
{
    open(tree, fresh, &paths.staging, fresh_paths, marker)?;
    write_file(tree, &paths.new_journal, journal, 0o600)
}

/// Makes what was staged durable, and then gives the journal its name.
pub fn publish<T: Tree>(tree: &mut T, paths: &StagingPaths) -> Result<(), CallName>
    requires paths { ArePaths paths.now }
    requires can { T.Tells → CanAll (Change.Sync ∷ plan_calls) (T.history tree.old) }
    ensures ran { T.Tells → Ran (Change.Sync ∷ plan_calls) (T.history tree.old) (T.history tree.new)
        (T.before_failed tree.old) (T.before_failed tree.new) result }
    ensures cause { NamesFault (T.faults tree.old) (T.faults tree.new) result }
{
    sync_and_rename(tree, &paths.new_journal, &paths.plan)
}

/// Makes the staging directory with all that a commit keeps there, and gives the journal its name when the rest is durable.
pub fn stage<T: Tree>(
    tree: &mut T,
    fresh: &[Fresh],
    journal: &[u8],
    paths: &StagingPaths,
    fresh_paths: &[Path],
    marker: &Path,
) -> Result<(), CallName>
    requires paths { ArePaths paths.now }
    requires fresh_paths { fresh_paths.now ≡ fresh_entry_paths (length fresh.now) }
    requires marker { marker.now ≡ staged (at_marker 0) }
    requires can { T.Tells → CanAll (staging_calls fresh.now journal.now) (T.history tree.old) }
    ensures ran { T.Tells → Ran (staging_calls fresh.now journal.now) (T.history tree.old)
        (T.history tree.new) (T.before_failed tree.old) (T.before_failed tree.new) result }
    ensures cause { NamesFault (T.faults tree.old) (T.faults tree.new) result }
{
    fill(tree, fresh, journal, paths, fresh_paths, marker)?;
    publish(tree, paths)
}
