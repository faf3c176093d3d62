// What order the paths of a tree are in.
ghost use Rattle.tree_core.specs.FileTree.{FileTree, IsTree};
ghost use Rattle.find_listing.specs.Preorder.{IsPreorder};

/// The paths that `find` filters are in preorder: each comes before what stands in it, which comes name by name, each name with all
/// that is below it before the next one.
pub fn paths_are_in_preorder()
    ensures { (t : FileTree) → IsTree t → IsPreorder t }
{}
