// What stands before a run and behind it.
ghost use Rattle.std.specs.Prelude.{◌≡◌, ◌++◌, IsTrue, OnOk};
ghost use Rattle.std.specs.String.{string_bytes};
ghost use Rattle.case_tables.specs.Pending.{pending_text};
ghost use Rattle.tree_core.specs.History.{IsDurable, current_tree};

use crate::RowFault;
use crate::listed::push_tree;
use dired_text::Memory;
use mem_tree::MemTree;
use std::alloc::Global;
use tree_core::Tree;

/// What is printed of a run that was stopped.
pub const STOPPED: &str = "stopped\n";

/// Has nothing pending behind it, where it answers true.
pub fn settle<T: Tree>(tree: &mut T) -> bool
    ensures durable { T.Tells → IsTrue result → IsDurable (T.history tree.new) }
    ensures kept { T.Tells → current_tree (T.history tree.new) ≡ current_tree (T.history tree.old) }
{
    tree.sync().is_ok()
}

/// Prints the tree that stands behind a run, or the image of this number, and answers it.
///
/// # Errors
/// `Bad` where there is no such image.
pub fn tree_behind(
    alloc: Global,
    text: &mut String,
    tree: MemTree,
    image: Option<u64>,
) -> Result<MemTree, RowFault> {
    let mut tree = match image {
        None => tree,
        Some(number) => image_of(&tree, number)?,
    };
    tree.fail_looks(&[])?;
    push_tree(alloc, text, &mut tree, None)?;
    push_pending(text, tree.images()?.len())?;
    Ok(tree)
}

// The image of this number.
fn image_of(tree: &MemTree, number: u64) -> Result<MemTree, RowFault> {
    let mut left = number;
    for image in tree.images()? {
        if left == 0 {
            return Ok(image);
        }
        left -= 1;
    }
    Err(RowFault::Bad)
}

// Prints whether something is pending: where nothing is, a crash leaves one tree, and there are two images of it.
fn push_pending(text: &mut String, images: usize) -> Result<(), Memory>
    ensures { OnOk result (string_bytes text.new ≡ string_bytes text.old ++ pending_text images) }
{
    text.push_str(if images > 2 { "pending\n" } else { "durable\n" })?;
    Ok(())
}
