// The conditions of the changing calls.
ghost use Rattle.std.specs.Prelude.{◌≡◌, ◌≢◌, ◌↔◌, [], Some, IsTrue};
ghost use Rattle.std.specs.Option.{option_map};
ghost use Rattle.std.specs.FinMap.{get};
ghost use Rattle.std.specs.Str.{is_utf8};
ghost use Rattle.tree_core.specs.FileTree.{CanMake, CanRename, HasMode, IsDir, IsEmptyAt, IsFile, IsMode, IsTarget, Stands, kind_of};
ghost use Rattle.mem_tree.specs.Stores.{tree_of};

use crate::lawful::is_target;
use crate::store::Store;
use dired_text::{Path, Text, rest_below};
use tree_core::Kind;

/// Whether something with a mode can be made.
pub fn can_make_with_mode(store: &Store, path: &Path, mode: u16) -> bool
    ensures { IsTrue result ↔ (CanMake (tree_of store.now) path.now × IsMode mode) }
{
    store.can_make(path) && mode <= 0o7777
}

/// Whether a link can be made.
pub fn can_make_link(store: &Store, path: &Path, target: &Text) -> bool
    ensures { IsTrue result ↔
        (CanMake (tree_of store.now) path.now × IsTarget target.now × IsTrue (is_utf8 target.now)) }
{
    store.can_make(path) && is_target(target)
}

/// Whether another path of the file at `old` can be made.
pub fn can_make_hard(store: &Store, path: &Path, old: &Path) -> bool
    ensures { IsTrue result ↔
        (CanMake (tree_of store.now) path.now × IsFile (tree_of store.now) old.now) }
{
    store.can_make(path) && is_kind(store, old, Kind::File)
}

/// Whether `from` can be renamed to `to`.
pub fn can_rename(store: &Store, from: &Path, to: &Path) -> bool
    ensures { IsTrue result ↔ CanRename (tree_of store.now) from.now to.now }
{
    // the root is not moved either, since everything is below it
    if rest_below(from.names(), to.names()).is_some() {
        return false;
    }
    store.kind(from).is_some() && store.can_make(to)
}

/// Whether what stands there can get this mode.
pub fn can_set_mode(store: &Store, path: &Path, mode: u16) -> bool
    ensures { IsTrue result ↔ (HasMode (tree_of store.now) path.now × IsMode mode) }
{
    has_mode(store, path) && mode <= 0o7777
}

// Whether a directory or a file stands there.
fn has_mode(store: &Store, path: &Path) -> bool
    ensures { IsTrue result ↔ HasMode (tree_of store.now) path.now }
{
    match store.kind(path) {
        Some(Kind::File | Kind::Dir) => true,
        _ => false,
    }
}

/// Whether what stands there can be removed as a file or link.
pub fn can_remove(store: &Store, path: &Path) -> bool
    ensures { IsTrue result ↔
        (Stands (tree_of store.now) path.now × (IsDir (tree_of store.now) path.now → ⊥)) }
{
    match store.kind(path) {
        Some(Kind::File | Kind::Link) => true,
        _ => false,
    }
}

/// Whether the directory there can be removed.
pub fn can_remove_dir(store: &Store, path: &Path) -> bool
    ensures { IsTrue result ↔
        (IsDir (tree_of store.now) path.now × (path.now ≢ []) ×
        IsEmptyAt (tree_of store.now) path.now) }
{
    if path.names().is_empty() {
        return false;
    }
    is_kind(store, path, Kind::Dir) && store.is_childless(path)
}

// Whether something of this kind stands there.
fn is_kind(store: &Store, path: &Path, kind: Kind) -> bool
    ensures { IsTrue result ↔ (option_map kind_of (get (tree_of store.now) path.now) ≡ Some kind) }
{
    store.kind(path) == Some(kind)
}
