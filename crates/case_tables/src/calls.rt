// The changing calls of a tree, and the names of calls.
ghost use Rattle.case_tables.specs.Calls.{call_text as call_text_of};
ghost use Rattle.std.specs.Prelude.{◌≡◌};
ghost use Rattle.tree_core.specs.FileTree.{CanDo};
ghost use Rattle.tree_core.specs.History.{current_tree, Performs};

use dired_text::Failed;
use tree_core::{CallName, Change, Tree};

/// Makes a changing call, which can be made.
pub fn make<T: Tree>(tree: &mut T, change: &Change) -> Result<(), Failed>
    requires { T.Tells → CanDo change.now (current_tree (T.history tree.old)) }
    ensures { T.Tells → Performs change.now (T.history tree.old) (T.history tree.new) result }
{
    match change {
        Change::MakeDir(path, mode) => tree.make_dir(path, *mode),
        Change::MakeLink(path, target) => tree.make_link(path, target.as_str()),
        Change::MakeHard(path, old) => tree.make_hard(path, old),
        Change::WriteFile(path, bytes, mode) => tree.write_file(path, bytes.as_slice(), *mode),
        Change::Rename(from, to) => tree.rename(from, to),
        Change::SetMode(path, mode) => tree.set_mode(path, *mode),
        Change::Remove(path) => tree.remove(path),
        Change::RemoveDir(path) => tree.remove_dir(path),
        Change::Sync => tree.sync(),
    }
}

/// The name of a call.
pub fn call_text(call: CallName) -> &'static str
    ensures { result.now ≡ call_text_of call }
{
    match call {
        CallName::Kind => "kind",
        CallName::Mode => "mode",
        CallName::IsEmpty => "is_empty",
        CallName::Meta => "meta",
        CallName::Names => "names",
        CallName::Read => "read",
        CallName::MakeDir => "make_dir",
        CallName::MakeLink => "make_link",
        CallName::MakeHard => "make_hard",
        CallName::WriteFile => "write_file",
        CallName::Rename => "rename",
        CallName::SetMode => "set_mode",
        CallName::Remove => "remove",
        CallName::RemoveDir => "remove_dir",
        CallName::Sync => "sync",
    }
}
