// The tree that a list of entries describes.
ghost use Rattle.std.specs.Prelude.{◌≡◌, None, [], IfOk, IfErr, IsTrue};
ghost use Rattle.tree_core.specs.FileTree.{root_tree};
ghost use Rattle.tree_core.specs.History.{Began, IsSound};
ghost use Rattle.mem_tree.specs.Lawful.{is_lawful as is_lawful_node};
ghost use Rattle.mem_tree.specs.Stores.{tree_of, times_of};
ghost use Rattle.mem_tree.specs.Built.{built, above, next_of, times_built, is_good_in, first_bad, HasTexts, Refuses};

use crate::lawful::is_lawful;
use crate::store::Store;
use dired_text::{Memory, Path};
use std::alloc::Global;
use tree_core::Node;

/// An entry of a tree.
#[derive(Drop)]
pub struct Entry {
    pub path: Path,
    pub node: Node,
    /// The time of its last change, in seconds since 1970.
    pub mtime: i64,
}

/// Why entries make no tree.
#[derive(Clone, Copy, Debug, PartialEq, Eq)]
pub enum BuildFault {
    /// The entry at this place, from 0, is the first that can't stand behind those before it.
    BadEntry(u64),
    /// An allocation was refused.
    Memory,
}

impl From<Memory> for BuildFault {
    ghost use Rattle.mem_tree.specs.declared.build.BuildFault.TheVariants as fault;

    ghost from_gives = { λ _ e. e ≡ fault.Memory };

    fn from(_error: Memory) -> BuildFault {
        BuildFault::Memory
    }
}

// Whether an entry may stand behind these, which the store keeps.
fn is_good(store: &Store, entry: &Entry) -> bool
    ensures good { result ≡ is_good_in store.now entry.now }
    ensures texts { HasTexts entry.now }
{
    let can_stand = store.can_make(&entry.path);
    let is_lawful = is_lawful(&entry.node);
    can_stand && is_lawful && store.fits(&entry.node)
}

// One above the number of a file, else 0.
fn number_above(node: &Node) -> u64
    requires { IsTrue (is_lawful_node node.now) }
    ensures { result ≡ above node.now }
{
    match node {
        Node::File { number, .. } => *number + 1,
        _ => 0,
    }
}

/// The store of the tree that the entries describe, and one above the greatest number of a file.
///
/// # Errors
/// `BadEntry` with the place, from 0, of the first entry that may not follow those before it.
#[tactic(auto, unfolding(crate::specs::Stores::tree_of, crate::specs::Stores::times_of))]
pub fn store_of(alloc: Global, entries: &[Entry]) -> Result<(Store, u64), BuildFault>
    ensures good { IfOk result (λ found. first_bad [] entries.now ≡ None) }
    ensures bad { IfErr result (λ fault. Refuses entries.now fault) }
    ensures tree { IfOk result (λ found. tree_of found.0 ≡ built root_tree entries.now) }
    ensures next { IfOk result (λ found. found.1 ≡ next_of entries.now) }
    ensures times { IfOk result (λ found. times_of found.0 ≡ times_built entries.now) }
    ensures sound { IfOk result (λ found. IsSound (Began (tree_of found.0) found.1)) }
{
    let mut store = Store::new(alloc)?;
    let mut next = 0u64;
    for (index, entry) in entries.iter().enumerate() {
        if !is_good(&store, entry) {
            return Err(BuildFault::BadEntry(index as u64));
        }
        next = next.max(number_above(&entry.node));
        store.add(&entry.path, &entry.node, entry.mtime)?;
    }
    Ok((store, next))
}
