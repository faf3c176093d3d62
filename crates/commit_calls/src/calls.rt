// The changing calls of a tree, which name themselves where they fail.
ghost use Rattle.std.specs.Prelude.{[], ◌∷◌};
ghost use Rattle.tree_core.specs.declared.node.Change.{Change};
ghost use Rattle.tree_core.specs.FileTree.{CanDo};
ghost use Rattle.tree_core.specs.History.{current_tree};
ghost use Rattle.tree_core.specs.Runs.{CanAll, Ran};
ghost use Rattle.tree_core.specs.Faults.{NamesFault};
ghost use Rattle.step_trees.specs.Steps.{call_of, undo_of};
ghost use Rattle.commit_calls.specs.Parts.{synced_rename_calls};

use commit_steps::Step;
use dired_text::Path;
use tree_core::{CallName, Tree};

/// Makes a directory.
pub fn make_dir<T: Tree>(tree: &mut T, path: &Path, mode: u16) -> Result<(), CallName>
    requires can { T.Tells → CanDo (Change.MakeDir path.now mode)
        (current_tree (T.history tree.old)) }
    ensures ran { T.Tells → Ran (Change.MakeDir path.now mode ∷ []) (T.history tree.old)
        (T.history tree.new) (T.before_failed tree.old) (T.before_failed tree.new) result }
    ensures cause { NamesFault (T.faults tree.old) (T.faults tree.new) result }
{
    match tree.make_dir(path, mode) {
        Ok(()) => Ok(()),
        Err(_) => Err(CallName::MakeDir),
    }
}

/// Makes a link.
pub fn make_link<T: Tree>(tree: &mut T, path: &Path, target: &str) -> Result<(), CallName>
    requires can { T.Tells → CanDo (Change.MakeLink path.now target.now)
        (current_tree (T.history tree.old)) }
    ensures ran { T.Tells → Ran (Change.MakeLink path.now target.now ∷ []) (T.history tree.old)
        (T.history tree.new) (T.before_failed tree.old) (T.before_failed tree.new) result }
    ensures cause { NamesFault (T.faults tree.old) (T.faults tree.new) result }
{
    match tree.make_link(path, target) {
        Ok(()) => Ok(()),
        Err(_) => Err(CallName::MakeLink),
    }
}

/// Gives a file another path.
pub fn make_hard<T: Tree>(tree: &mut T, path: &Path, old: &Path) -> Result<(), CallName>
    requires can { T.Tells → CanDo (Change.MakeHard path.now old.now)
        (current_tree (T.history tree.old)) }
    ensures ran { T.Tells → Ran (Change.MakeHard path.now old.now ∷ []) (T.history tree.old)
        (T.history tree.new) (T.before_failed tree.old) (T.before_failed tree.new) result }
    ensures cause { NamesFault (T.faults tree.old) (T.faults tree.new) result }
{
    match tree.make_hard(path, old) {
        Ok(()) => Ok(()),
        Err(_) => Err(CallName::MakeHard),
    }
}

/// Makes a file.
pub fn write_file<T: Tree>(
    tree: &mut T,
    path: &Path,
    bytes: &[u8],
    mode: u16,
) -> Result<(), CallName>
    requires can { T.Tells → CanDo (Change.WriteFile path.now bytes.now mode)
        (current_tree (T.history tree.old)) }
    ensures ran { T.Tells → Ran (Change.WriteFile path.now bytes.now mode ∷ []) (T.history tree.old)
        (T.history tree.new) (T.before_failed tree.old) (T.before_failed tree.new) result }
    ensures cause { NamesFault (T.faults tree.old) (T.faults tree.new) result }
{
    match tree.write_file(path, bytes, mode) {
        Ok(()) => Ok(()),
        Err(_) => Err(CallName::WriteFile),
    }
}

/// Moves what stands at a path.
pub fn rename<T: Tree>(tree: &mut T, from: &Path, to: &Path) -> Result<(), CallName>
    requires can { T.Tells → CanDo (Change.Rename from.now to.now)
        (current_tree (T.history tree.old)) }
    ensures ran { T.Tells → Ran (Change.Rename from.now to.now ∷ []) (T.history tree.old)
        (T.history tree.new) (T.before_failed tree.old) (T.before_failed tree.new) result }
    ensures cause { NamesFault (T.faults tree.old) (T.faults tree.new) result }
{
    match tree.rename(from, to) {
        Ok(()) => Ok(()),
        Err(_) => Err(CallName::Rename),
    }
}

/// Sets a mode.
pub fn set_mode<T: Tree>(tree: &mut T, path: &Path, mode: u16) -> Result<(), CallName>
    requires can { T.Tells → CanDo (Change.SetMode path.now mode)
        (current_tree (T.history tree.old)) }
    ensures ran { T.Tells → Ran (Change.SetMode path.now mode ∷ []) (T.history tree.old)
        (T.history tree.new) (T.before_failed tree.old) (T.before_failed tree.new) result }
    ensures cause { NamesFault (T.faults tree.old) (T.faults tree.new) result }
{
    match tree.set_mode(path, mode) {
        Ok(()) => Ok(()),
        Err(_) => Err(CallName::SetMode),
    }
}

/// Removes a file's path or a link.
pub fn remove<T: Tree>(tree: &mut T, path: &Path) -> Result<(), CallName>
    requires can { T.Tells → CanDo (Change.Remove path.now) (current_tree (T.history tree.old)) }
    ensures ran { T.Tells → Ran (Change.Remove path.now ∷ []) (T.history tree.old)
        (T.history tree.new) (T.before_failed tree.old) (T.before_failed tree.new) result }
    ensures cause { NamesFault (T.faults tree.old) (T.faults tree.new) result }
{
    match tree.remove(path) {
        Ok(()) => Ok(()),
        Err(_) => Err(CallName::Remove),
    }
}

/// Removes an empty directory.
pub fn remove_dir<T: Tree>(tree: &mut T, path: &Path) -> Result<(), CallName>
    requires can { T.Tells → CanDo (Change.RemoveDir path.now) (current_tree (T.history tree.old)) }
    ensures ran { T.Tells → Ran (Change.RemoveDir path.now ∷ []) (T.history tree.old)
        (T.history tree.new) (T.before_failed tree.old) (T.before_failed tree.new) result }
    ensures cause { NamesFault (T.faults tree.old) (T.faults tree.new) result }
{
    match tree.remove_dir(path) {
        Ok(()) => Ok(()),
        Err(_) => Err(CallName::RemoveDir),
    }
}

/// Makes all changes durable.
pub fn sync<T: Tree>(tree: &mut T) -> Result<(), CallName>
    ensures ran { T.Tells → Ran (Change.Sync ∷ []) (T.history tree.old) (T.history tree.new)
        (T.before_failed tree.old) (T.before_failed tree.new) result }
    ensures cause { NamesFault (T.faults tree.old) (T.faults tree.new) result }
{
    match tree.sync() {
        Ok(()) => Ok(()),
        Err(_) => Err(CallName::Sync),
    }
}

/// Does one step.
pub fn do_step<T: Tree>(tree: &mut T, step: &Step) -> Result<(), CallName>
    requires can { T.Tells → CanDo (call_of step.now) (current_tree (T.history tree.old)) }
    ensures ran { T.Tells → Ran (call_of step.now ∷ []) (T.history tree.old) (T.history tree.new)
        (T.before_failed tree.old) (T.before_failed tree.new) result }
    ensures cause { NamesFault (T.faults tree.old) (T.faults tree.new) result }
{
    match step {
        Step::MakeDir(path) => make_dir(tree, path, 0o755),
        Step::Rename(from, to) => rename(tree, from, to),
        Step::Mode(path, _, mode) => set_mode(tree, path, *mode),
    }
}

/// Undoes one step that was done.
pub fn undo_step<T: Tree>(tree: &mut T, step: &Step) -> Result<(), CallName>
    requires can { T.Tells → CanDo (undo_of step.now) (current_tree (T.history tree.old)) }
    ensures ran { T.Tells → Ran (undo_of step.now ∷ []) (T.history tree.old) (T.history tree.new)
        (T.before_failed tree.old) (T.before_failed tree.new) result }
    ensures cause { NamesFault (T.faults tree.old) (T.faults tree.new) result }
{
    match step {
        Step::MakeDir(path) => remove_dir(tree, path),
        Step::Rename(from, to) => rename(tree, to, from),
        Step::Mode(path, mode, _) => set_mode(tree, path, *mode),
    }
}

/// Moves what stands at a path, and makes that durable.
pub fn rename_and_sync<T: Tree>(tree: &mut T, from: &Path, to: &Path) -> Result<(), CallName>
    requires can { T.Tells → CanAll (Change.Rename from.now to.now ∷ Change.Sync ∷ [])
        (T.history tree.old) }
    ensures ran { T.Tells → Ran (Change.Rename from.now to.now ∷ Change.Sync ∷ [])
        (T.history tree.old) (T.history tree.new) (T.before_failed tree.old)
        (T.before_failed tree.new) result }
    ensures cause { NamesFault (T.faults tree.old) (T.faults tree.new) result }
{
    rename(tree, from, to)?;
    sync(tree)
}

/// Makes durable what was done, moves what stands at a path, and makes that durable.
pub fn sync_and_rename<T: Tree>(tree: &mut T, from: &Path, to: &Path) -> Result<(), CallName>
    requires can { T.Tells → CanAll (synced_rename_calls from.now to.now) (T.history tree.old) }
    ensures ran { T.Tells → Ran (synced_rename_calls from.now to.now) (T.history tree.old)
        (T.history tree.new) (T.before_failed tree.old) (T.before_failed tree.new) result }
    ensures cause { NamesFault (T.faults tree.old) (T.faults tree.new) result }
{
    sync(tree)?;
    rename_and_sync(tree, from, to)
}
