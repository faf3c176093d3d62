// The tree of a drill.
ghost use Rattle.std.specs.Prelude.{◌≡◌, ◌≤◌, ◌<◌, ◌^◌, ℕ, IfOk, length};
ghost use Rattle.drill_memory.specs.Numbered.{HaveOwnNumbers, entry_numbered, node_numbered, numbered};
ghost use Rattle.drill_tree.specs.Drill.{IsDrillTree};
ghost use Rattle.mem_tree.specs.MemHistory.{IsUntouched, history_told, tree_told};
ghost use Rattle.tree_core.specs.History.{IsDurable};

use dired_text::{Bytes, Memory};
use drill_tree::{Held, drill_entries};
use mem_tree::{BuildFault, Entry, MemTree};
use std::alloc::Global;
use tree_core::Node;

/// The tree of a drill of so many groups, 20,000 at most. No two of its files have one number. Nothing is pending in it, and no
/// call is to fail.
///
/// # Errors
/// Want of memory.
pub fn make_drill(alloc: Global, groups: u32) -> Result<MemTree, Memory>
    requires { groups ≤ 20000 }
    ensures tree { IfOk result (λ t. IsDrillTree groups (tree_told t)) }
    ensures numbers { IfOk result (λ t. HaveOwnNumbers (tree_told t)) }
    ensures durable { IfOk result (λ t. IsDurable (history_told t)) }
    ensures untouched { IfOk result (λ t. (next : ℕ) × IsUntouched next t) }
{
    let held = drill_entries(alloc, groups)?;
    let entries = entries_from(alloc, held)?;
    match MemTree::new(alloc, entries.as_slice()) {
        Ok(tree) => Ok(tree),
        Err(BuildFault::BadEntry(_)) => unreachable!(),
        Err(BuildFault::Memory) => Err(Memory),
    }
}

// The entries of a tree that holds this.
fn entries_from(alloc: Global, held: Vec<Held>) -> Result<Vec<Entry>, Memory>
    ensures { IfOk result (λ v. v.items ≡ numbered 0 held.items) }
{
    let mut entries = Vec::with_capacity(alloc, held.len())?;
    for one in held {
        let number = entries.len() as u64;
        entries.push(entry_from(alloc, number, one))?;
    }
    Ok(entries)
}

// The entry of what is held. A file gets this number.
fn entry_from(alloc: Global, number: u64, one: Held) -> Entry
    ensures { result ≡ entry_numbered number one }
{
    Entry {
        path: one.path,
        node: node_of(alloc, number, one.is_dir),
        mtime: 0,
    }
}

// A directory, or an empty file of this number.
fn node_of(alloc: Global, number: u64, is_dir: bool) -> Node
    ensures { result ≡ node_numbered number is_dir }
{
    if is_dir {
        return Node::Dir(0o755);
    }
    Node::File {
        number,
        bytes: Bytes::from_vec(Vec::new(alloc)),
        mode: 0o644,
    }
}

#[cfg(test)]
mod tests {
    use super::*;
    use dired_text::Path;
    use std::test::Fail;
    use tree_core::{Kind, Tree};

    const FIRST_FIVE: &str = "/ g000000/ g000001/ g000002/ g000003/ g000004/ \
        g000000/a g000000/b g000000/c g000001/c0 g000001/c1 g000002/s/ \
        g000003/a g000003/b g000004/s/ g000002/s/x g000004/s/x ";

    // The paths of a tree of at most a hundred, those of fewer names first. A directory's ends in a slash.
    fn paths_of(alloc: Global, tree: &mut MemTree) -> Result<String, Fail> {
        let mut paths = vec![in alloc; Path::root(alloc)]?;
        let mut text = String::new(alloc);
        for index in 0..100 {
            let Some(path) = paths.get(index) else {
                break;
            };
            let path = path.copy()?;
            let shown = path.text()?;
            text.push_str(shown.as_str())?;
            if tree.kind(&path)? == Some(Kind::Dir) {
                text.push('/')?;
                for name in tree.names(alloc, &path)? {
                    if let Some(child) = path.child(&name)? {
                        paths.push(child)?;
                    }
                }
            }
            text.push(' ')?;
        }
        Ok(text)
    }

    #[test]
    fn one_group_is_made(rt: HostRuntime) -> Result<(), Fail> {
        let mut tree = make_drill(rt.alloc(), 1)?;
        let paths = paths_of(rt.alloc(), &mut tree)?;
        assert_eq!(rt; paths.as_str(), "/ g000000/ g000000/a g000000/b g000000/c ");
        Ok(())
    }

    #[test]
    fn each_kind_of_group_is_made(rt: HostRuntime) -> Result<(), Fail> {
        let mut tree = make_drill(rt.alloc(), 5)?;
        let paths = paths_of(rt.alloc(), &mut tree)?;
        assert_eq!(rt; paths.as_str(), FIRST_FIVE);
        Ok(())
    }
}
