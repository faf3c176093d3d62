// The staging directory, removed where no journal has its name.
ghost use Rattle.std.specs.Prelude.{[], ◌∷◌};
ghost use Rattle.tree_core.specs.declared.node.Change.{Change};
ghost use Rattle.tree_core.specs.Runs.{CanAll, Ran};
ghost use Rattle.tree_core.specs.Faults.{NamesFault};
ghost use Rattle.commit_calls.specs.Parts.{unstaging_calls};

use crate::calls::{remove_dir, sync};
use crate::clearing::remove_all;
use dired_text::Path;
use tree_core::{CallName, Tree};

// Removes a directory, and makes that durable.
fn remove_dir_and_sync<T: Tree>(tree: &mut T, directory: &Path) -> Result<(), CallName>
    requires can { T.Tells → CanAll (Change.RemoveDir directory.now ∷ Change.Sync ∷ [])
        (T.history tree.old) }
    ensures ran { T.Tells → Ran (Change.RemoveDir directory.now ∷ Change.Sync ∷ [])
        (T.history tree.old) (T.history tree.new) (T.before_failed tree.old)
        (T.before_failed tree.new) result }
    ensures cause { NamesFault (T.faults tree.old) (T.faults tree.new) result }
{
    remove_dir(tree, directory)?;
    sync(tree)
}

/// Removes these files and links, which are all that stands in the staging directory, in order, and then the directory, and makes
/// that durable.
pub fn unstage<T: Tree>(tree: &mut T, entries: &[Path], directory: &Path) -> Result<(), CallName>
    requires can { T.Tells → CanAll (unstaging_calls entries.now directory.now)
        (T.history tree.old) }
    ensures ran { T.Tells → Ran (unstaging_calls entries.now directory.now) (T.history tree.old)
        (T.history tree.new) (T.before_failed tree.old) (T.before_failed tree.new) result }
    ensures cause { NamesFault (T.faults tree.old) (T.faults tree.new) result }
{
    remove_all(tree, entries)?;
    remove_dir_and_sync(tree, directory)
}
