// The tree that reads, entry by entry.
use crate::RowFault;
use crate::entry::push_row;
use dired_text::{Bytes, Name, Path};
use std::alloc::Global;
use tree_core::{Kind, LookEnd, ReadEnd, Tree};

/// Prints each entry of a tree but the root and, where a path is to be left out, what stands there and below it. They come in
/// the order of their paths.
///
/// # Errors
/// `Bad` where something stands at a path of more than 4,095 bytes, and `Memory` where an allocation was refused or a look failed.
pub fn push_tree<T: Tree>(
    alloc: Global,
    text: &mut String,
    tree: &mut T,
    left_out: Option<&Path>,
) -> Result<(), RowFault> {
    let mut waiting = Vec::new(alloc);
    push_children(alloc, tree, &Path::root(alloc), &mut waiting)?;
    for _ in 0..u64::MAX {
        let Some(path) = waiting.pop() else {
            break;
        };
        if left_out == Some(&path) {
            continue;
        }
        push_entry(alloc, text, tree, &path)?;
        push_children(alloc, tree, &path, &mut waiting)?;
    }
    Ok(())
}

// Puts the paths directly below a directory behind those that wait, the least last.
fn push_children<T: Tree>(
    alloc: Global,
    tree: &mut T,
    dir: &Path,
    waiting: &mut Vec<Path>,
) -> Result<(), RowFault> {
    match tree.kind(dir) {
        Ok(Some(Kind::Dir)) => {}
        Ok(_) => return Ok(()),
        Err(_) => return Err(RowFault::Memory),
    }
    let names = match tree.names(alloc, dir) {
        Ok(names) => names,
        Err(LookEnd::Failed | LookEnd::Memory) => return Err(RowFault::Memory),
    };
    for name in names.iter().rev() {
        push_child(dir, name, waiting)?;
    }
    Ok(())
}

fn push_child(dir: &Path, name: &Name, waiting: &mut Vec<Path>) -> Result<(), RowFault> {
    match dir.child(name)? {
        Some(path) => Ok(waiting.push(path)?),
        None => Err(RowFault::Bad),
    }
}

// Prints the entry at a path.
fn push_entry<T: Tree>(
    alloc: Global,
    text: &mut String,
    tree: &mut T,
    path: &Path,
) -> Result<(), RowFault> {
    let kind = match tree.kind(path) {
        Ok(Some(kind)) => kind,
        _ => return Err(RowFault::Memory),
    };
    let bytes = match kind {
        Kind::File => match tree.read(alloc, path, u64::MAX) {
            Ok(bytes) => bytes,
            Err(ReadEnd::Failed | ReadEnd::Memory | ReadEnd::TooLarge) => {
                return Err(RowFault::Memory);
            }
        },
        Kind::Dir | Kind::Link => Bytes::from_vec(Vec::new(alloc)),
    };
    match tree.meta(alloc, path) {
        Ok(meta) => Ok(push_row(text, path, &meta, bytes.as_slice())?),
        Err(LookEnd::Failed | LookEnd::Memory) => Err(RowFault::Memory),
    }
}
