// How a tree is printed.
ghost use Rattle.tree_core.specs.FileTree.{IsFile};
ghost use Rattle.tree_core.specs.History.{current_tree};

use crate::stop::Stop;
use dired_text::Path;
use std::alloc::Global;
use tree_core::{Kind, ReadEnd, Tree};

// Trees of more entries than this aren't printed.
const MAX_ENTRIES: u64 = 1_000;

/// The text of a file's bytes, where they are one.
pub fn text_of(bytes: &[u8]) -> Result<&str, Stop> {
    str::from_utf8(bytes).map_err(|_| Stop::BadLine)
}

// Prints the entry of a file.
fn print_file<T: Tree>(rt: HostRuntime, tree: &mut T, path: &Path) -> Result<(), Stop>
    requires { T.Tells → IsFile (current_tree (T.history tree.old)) path.now }
{
    let alloc = rt.alloc();
    let meta = tree.meta(alloc, path)?;
    let bytes = match tree.read(alloc, path, meta.size) {
        Ok(bytes) => bytes,
        Err(ReadEnd::Memory) => return Err(Stop::Outside),
        Err(_) => return Err(Stop::BadLine),
    };
    let text = path.text()?;
    let place = text.as_str();
    let bytes = text_of(bytes.as_slice())?;
    let (number, mode) = (meta.number, meta.mode);
    Ok(print!(rt; " f,{place},{number},{bytes},{mode:o}")?)
}

// Prints the entry at a path, behind a space.
fn print_entry<T: Tree>(rt: HostRuntime, tree: &mut T, path: &Path) -> Result<(), Stop> {
    let text = path.text()?;
    let place = text.as_str();
    match tree.kind(path)? {
        None => Ok(()),
        Some(Kind::File) => print_file(rt, tree, path),
        Some(Kind::Dir) => {
            let mode = tree.mode(path)?;
            Ok(print!(rt; " d,{place},{mode:o}")?)
        }
        Some(Kind::Link) => {
            let meta = tree.meta(rt.alloc(), path)?;
            let target = meta.target.as_str();
            Ok(print!(rt; " l,{place},{target}")?)
        }
    }
}

// Puts the paths directly below a directory on those ahead, the last name first.
fn push_children<T: Tree>(
    alloc: Global,
    tree: &mut T,
    path: &Path,
    ahead: &mut Vec<Path>,
) -> Result<(), Stop> {
    if tree.kind(path)? != Some(Kind::Dir) {
        return Ok(());
    }
    for name in tree.names(alloc, path)?.iter().rev() {
        match path.child(name)? {
            Some(child) => ahead.push(child)?,
            None => return Err(Stop::BadLine),
        }
    }
    Ok(())
}

/// Prints a word and the entries of the tree that reads, each directory before what is below it.
pub fn print_tree<T: Tree>(rt: HostRuntime, tree: &mut T, word: &str) -> Result<(), Stop> {
    let alloc = rt.alloc();
    let mut ahead = Vec::new(alloc);
    print!(rt; "{word}")?;
    push_children(alloc, tree, &Path::root(alloc), &mut ahead)?;
    for _ in 0..MAX_ENTRIES {
        let Some(path) = ahead.pop() else {
            return Ok(println!(rt; "")?);
        };
        print_entry(rt, tree, &path)?;
        push_children(alloc, tree, &path, &mut ahead)?;
    }
    Err(Stop::BadLine)
}
