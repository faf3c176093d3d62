// The staging directory, cleared from its last journal on.
ghost use Rattle.std.specs.Prelude.{ℕ, List, ◌∷◌, []};
ghost use Rattle.commit_calls.specs.Parts.{unstaging_calls};
ghost use Rattle.commit_states.specs.Calls.{Items, removal_by};
ghost use Rattle.recovery_calls.specs.Closing.{AreStaged, AreThose, closed_calls, item_calls, last_calls};
ghost use Rattle.recovery_courses.specs.Ends.{clearing, closing};
ghost use Rattle.tree_core.specs.FileTree.{CanDo};
ghost use Rattle.tree_core.specs.Faults.{NamesFault};
ghost use Rattle.tree_core.specs.History.{current_tree};
ghost use Rattle.tree_core.specs.Runs.{CanAll, Ran};

use commit_calls::{remove, remove_dir, sync, unstage};
use dired_text::Path;
use tree_core::{CallName, Tree};

/// What was read in the staging directory besides the journal.
#[derive(Debug, Drop)]
pub struct Item {
    /// Its path.
    pub path: Path,
    /// Whether it is a directory.
    pub is_dir: bool,
}

/// Removes what was read in the staging directory besides a journal, in order, and when that is durable the journal and the
/// directory. So a recovery ends what the seal or a way back left.
///
/// # Errors
/// The call of this name failed. The calls before it were done.
pub fn close<T: Tree>(
    tree: &mut T,
    items: &[Item],
    journal: &Path,
    directory: &Path,
) -> Result<(), CallName>
    requires can { T.Tells → CanAll (closed_calls items.now journal.now directory.now)
        (T.history tree.old) }
    ensures ran { T.Tells → Ran (closed_calls items.now journal.now directory.now)
        (T.history tree.old) (T.history tree.new)
        (T.before_failed tree.old) (T.before_failed tree.new) result }
    ensures course { T.Tells → (name : List ℕ) (xs : Items) →
        AreThose xs name items.now journal.now directory.now → Ran (closing name xs).calls
        (T.history tree.old) (T.history tree.new)
        (T.before_failed tree.old) (T.before_failed tree.new) result }
    ensures cause { NamesFault (T.faults tree.old) (T.faults tree.new) result }
{
    remove_items(tree, items)?;
    remove_last(tree, journal, directory)
}

// Makes durable what was done, and then removes the journal and the staging directory.
fn remove_last<T: Tree>(tree: &mut T, journal: &Path, directory: &Path) -> Result<(), CallName>
    requires can { T.Tells → CanAll (last_calls journal.now directory.now) (T.history tree.old) }
    ensures ran { T.Tells → Ran (last_calls journal.now directory.now)
        (T.history tree.old) (T.history tree.new)
        (T.before_failed tree.old) (T.before_failed tree.new) result }
    ensures cause { NamesFault (T.faults tree.old) (T.faults tree.new) result }
{
    sync(tree)?;
    remove(tree, journal)?;
    remove_dir(tree, directory)?;
    sync(tree)
}

// Removes these, in order.
fn remove_items<T: Tree>(tree: &mut T, items: &[Item]) -> Result<(), CallName>
    requires can { T.Tells → CanAll (item_calls items.now) (T.history tree.old) }
    ensures ran { T.Tells → Ran (item_calls items.now)
        (T.history tree.old) (T.history tree.new)
        (T.before_failed tree.old) (T.before_failed tree.new) result }
    ensures cause { NamesFault (T.faults tree.old) (T.faults tree.new) result }
{
    for item in items {
        remove_item(tree, item)?;
    }
    Ok(())
}

fn remove_item<T: Tree>(tree: &mut T, item: &Item) -> Result<(), CallName>
    requires can { T.Tells → CanDo (removal_by item.now.is_dir item.now.path)
        (current_tree (T.history tree.old)) }
    ensures ran { T.Tells → Ran (removal_by item.now.is_dir item.now.path ∷ [])
        (T.history tree.old) (T.history tree.new)
        (T.before_failed tree.old) (T.before_failed tree.new) result }
    ensures cause { NamesFault (T.faults tree.old) (T.faults tree.new) result }
{
    if item.is_dir {
        remove_dir(tree, &item.path)
    } else {
        remove(tree, &item.path)
    }
}

/// Removes what was read in the staging directory where no journal stands, all files and links, in order, and then the directory. So a
/// recovery ends what a staging left.
///
/// # Errors
/// The call of this name failed. The calls before it were done.
pub fn clear<T: Tree>(tree: &mut T, entries: &[Path], directory: &Path) -> Result<(), CallName>
    requires can { T.Tells → CanAll (unstaging_calls entries.now directory.now)
        (T.history tree.old) }
    ensures ran { T.Tells → Ran (unstaging_calls entries.now directory.now)
        (T.history tree.old) (T.history tree.new)
        (T.before_failed tree.old) (T.before_failed tree.new) result }
    ensures course { T.Tells → (names : List (List ℕ)) →
        AreStaged names entries.now directory.now → Ran (clearing names).calls
        (T.history tree.old) (T.history tree.new)
        (T.before_failed tree.old) (T.before_failed tree.new) result }
    ensures cause { NamesFault (T.faults tree.old) (T.faults tree.new) result }
{
    unstage(tree, entries, directory)
}
