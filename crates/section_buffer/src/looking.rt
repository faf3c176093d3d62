// Looks at a tree.
ghost use Rattle.std.specs.Prelude.{◌≡◌, [], true, IfErr, IfOk};
ghost use Rattle.std.specs.FinMap.{get};
ghost use Rattle.std.specs.Option.{option_map};
ghost use Rattle.subdir_list.specs.Listings.{IsListed};
ghost use Rattle.tree_core.specs.FileTree.{IsDir, is_dir_node, kind_of};
ghost use Rattle.tree_core.specs.History.{current_tree};
ghost use Rattle.tree_core.specs.Looks.{OnlyLooked, failed_in, faults_with};
ghost use Rattle.section_buffer.specs.Making.{IsFaultOrMemory, failed_call};

use crate::BufferEnd;
use dired_text::Path;
use listing_text::{Line, Switches};
use std::alloc::Global;
use subdir_list::{ListEnd, list_dir};
use tree_core::{CallName, Kind, Tree};

// What stands at a path, or None.
pub(crate) fn kind_at<T: Tree>(tree: &mut T, path: &Path) -> Result<Option<Kind>, BufferEnd>
    ensures kind { T.Tells → IfOk result (λ kind. kind ≡
        option_map kind_of (get (current_tree (T.history tree.old)) path.now)) }
    ensures end { IfErr result (λ end. end ≡ BufferEnd.TreeFault CallName.Kind) }
    ensures looked { T.Tells → OnlyLooked (failed_in failed_call result)
        (T.history tree.old) (T.history tree.new) (T.fields tree.old) (T.fields tree.new)
        (T.before_failed tree.old) (T.before_failed tree.new) }
    ensures faults { T.faults tree.new ≡
        faults_with (failed_in failed_call result) (T.faults tree.old) }
    ensures unchanged { T.changes tree.new ≡ T.changes tree.old }
{
    match tree.kind(path) {
        Ok(kind) => Ok(kind),
        Err(_) => Err(BufferEnd::TreeFault(CallName::Kind)),
    }
}

// Whether a directory stands at a path. One stands at the root, whatever a tree tells.
pub(crate) fn is_dir<T: Tree>(tree: &mut T, path: &Path) -> Result<bool, BufferEnd>
    ensures dir { T.Tells → IfOk result (λ dir. dir ≡
        is_dir_node (get (current_tree (T.history tree.old)) path.now)) }
    ensures root { path.now ≡ [] → IfOk result (λ dir. dir ≡ true) }
    ensures end { IfErr result (λ end. end ≡ BufferEnd.TreeFault CallName.Kind) }
    ensures looked { T.Tells → OnlyLooked (failed_in failed_call result)
        (T.history tree.old) (T.history tree.new) (T.fields tree.old) (T.fields tree.new)
        (T.before_failed tree.old) (T.before_failed tree.new) }
    ensures faults { T.faults tree.new ≡
        faults_with (failed_in failed_call result) (T.faults tree.old) }
    ensures unchanged { T.changes tree.new ≡ T.changes tree.old }
{
    if path.names().is_empty() {
        return Ok(true);
    }
    Ok(kind_at(tree, path)? == Some(Kind::Dir))
}

// The lines that a tree gives of a directory.
pub(crate) fn listed_lines<T: Tree>(
    alloc: Global,
    tree: &mut T,
    dir: &Path,
    switches: &Switches,
) -> Result<Vec<Line>, BufferEnd>
    requires dir { T.Tells → IsDir (current_tree (T.history tree.old)) dir.now }
    ensures lines { T.Tells → IfOk result
        (λ lines.
        IsListed switches.now (current_tree (T.history tree.old))
        (T.fields tree.old) dir.now lines.items) }
    ensures end { IfErr result IsFaultOrMemory }
    ensures looked { T.Tells → OnlyLooked (failed_in failed_call result)
        (T.history tree.old) (T.history tree.new) (T.fields tree.old) (T.fields tree.new)
        (T.before_failed tree.old) (T.before_failed tree.new) }
    ensures faults { T.faults tree.new ≡
        faults_with (failed_in failed_call result) (T.faults tree.old) }
    ensures unchanged { T.changes tree.new ≡ T.changes tree.old }
{
    match list_dir(alloc, tree, dir, switches) {
        Ok(lines) => Ok(lines),
        Err(ListEnd::TreeFault(call)) => Err(BufferEnd::TreeFault(call)),
        Err(_) => Err(BufferEnd::Memory),
    }
}
