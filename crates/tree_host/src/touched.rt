// What was touched since the last sync.
ghost use Rattle.std.specs.Prelude.{◌≡◌, ◌≤◌, ◌+◌, true, false, All, IfOk, IfSome, OnOk};
ghost use Rattle.std.specs.BTreeSet.{IsEmpty, btree_set_len};
ghost use Rattle.dired_text.specs.Paths.{parent};
ghost use Rattle.tree_core.specs.FileTree.{moved as place_after};
ghost use Rattle.tree_host.specs.Notes.{IsNoted, KeepsNotes, most_notes};

use dired_text::{Memory, Path};
use host_looks::moved_path;
use std::alloc::Global;
use std::collections::BTreeSet;
use std::mem;

// How many paths are noted at most.
const MOST_NOTES: usize = 64;

/// The paths of the directories and files that were touched since the last sync, or all.
#[derive(Drop)]
pub struct Touched {
    pub paths: BTreeSet<Path>,
    pub all: bool,
}

impl Touched {
    /// None.
    pub fn nothing(alloc: Global) -> Self
        ensures empty { IsEmpty result.paths }
        ensures all { result.all ≡ false }
    {
        Touched {
            paths: BTreeSet::new(alloc),
            all: false,
        }
    }

    /// All, also what others touched.
    pub fn everything(alloc: Global) -> Self
        ensures empty { IsEmpty result.paths }
        ensures all { result.all ≡ true }
    {
        Touched {
            paths: BTreeSet::new(alloc),
            all: true,
        }
    }

    /// Notes a path. Where there are too many notes, or no memory for one, all are noted.
    pub fn note(&mut self, path: &Path)
        ensures noted { IsNoted self.new path.now }
        ensures kept { KeepsNotes self.old self.new }
        ensures few { btree_set_len self.old.paths ≤ most_notes →
            btree_set_len self.new.paths ≤ most_notes }
    {
        if self.all || self.paths.contains(path) {
            return;
        }
        if self.paths.len() >= MOST_NOTES || self.add(path).is_err() {
            self.all = true;
        }
    }

    // Adds a path. Without memory for it nothing changes.
    fn add(&mut self, path: &Path) -> Result<(), Memory>
        ensures noted { OnOk result (IsNoted self.new path.now) }
        ensures kept { KeepsNotes self.old self.new }
        ensures few { btree_set_len self.new.paths ≤ btree_set_len self.old.paths + 1 }
    {
        let copy = path.copy()?;
        self.paths.insert(copy)?;
        Ok(())
    }

    /// Notes the directory above a path. The root stands for its own.
    pub fn note_parent(&mut self, alloc: Global, path: &Path)
        ensures noted { IsNoted self.new (parent path.now) }
        ensures kept { KeepsNotes self.old self.new }
        ensures few { btree_set_len self.old.paths ≤ most_notes →
            btree_set_len self.new.paths ≤ most_notes }
    {
        match parent_of(alloc, path) {
            Ok(Some(above)) => self.note(&above),
            _ => self.all = true,
        }
    }

    /// Notes what stood at or below `from` where it stands now, behind a rename to `to`.
    pub fn moved(&mut self, alloc: Global, from: &Path, to: &Path)
        ensures moved { All (λ q. IsNoted self.new (place_after from.now to.now q))
            self.old.paths.keys }
        ensures all { self.old.all ≡ true → self.new.all ≡ true }
        ensures few { btree_set_len self.new.paths ≤ most_notes }
    {
        let before = mem::replace(&mut self.paths, BTreeSet::new(alloc));
        for path in before {
            self.note_moved(alloc, &path, from, to);
        }
    }

    // Notes a path where what stood there stands now, behind a rename of `from` to `to`.
    fn note_moved(&mut self, alloc: Global, path: &Path, from: &Path, to: &Path)
        ensures noted { IsNoted self.new (place_after from.now to.now path.now) }
        ensures kept { KeepsNotes self.old self.new }
        ensures few { btree_set_len self.old.paths ≤ most_notes →
            btree_set_len self.new.paths ≤ most_notes }
    {
        match moved_path(alloc, path, from, to) {
            Ok(Some(place)) => self.note(&place),
            _ => self.all = true,
        }
    }
}

// The path of the directory above, or the root for itself.
fn parent_of(alloc: Global, path: &Path) -> Result<Option<Path>, Memory>
    ensures { IfOk result (λ found. IfSome found (λ p. p ≡ parent path.now)) }
{
    match path.names().split_last() {
        Some((_, above)) => Path::join(alloc, above),
        None => Ok(Some(Path::root(alloc))),
    }
}
