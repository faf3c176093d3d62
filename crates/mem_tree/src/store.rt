// A tree in memory, in ordered maps.
ghost use Rattle.std.specs.Prelude.{◌≡◌};
ghost use Rattle.dired_text.specs.Paths.{parent as parent_of};
ghost use Rattle.mem_tree.specs.Slots.{Counted, ParentsStand};

use crate::changing::{apply, number_at, put_node};
use crate::conditions::{
    can_make_hard, can_make_link, can_make_with_mode, can_remove, can_remove_dir, can_rename,
    can_set_mode,
};
use crate::files::FileMap;
use crate::looking::{bytes, fits, is_same, links, mode, shows_same, size};
use crate::slots::{Content, Slot, SlotMap, child_name};
use dired_text::{Memory, Name, Path, Text};
use std::alloc::Global;
use tree_core::{Change, Kind, Meta, Node};

/// A tree with the time of the last change at each path.
#[derive(Drop)]
pub struct Store {
    alloc: Global,
    slots: SlotMap,
    files: FileMap,
    ghost counted: { Counted slots files },
    ghost parents: { ParentsStand slots },
}

impl Store {
    ghost use Rattle.std.specs.Prelude.{◌≡◌, ◌↔◌, ◌&&◌, not, is_some, Some, IfOk, OnOk, OnErr, IsTrue, pos};
    ghost use Rattle.std.specs.Option.{option_map};
    ghost use Rattle.std.specs.FinMap.{get, insert};
    ghost use Rattle.dired_text.specs.Paths.{AreNames, parent as parent_of};
    ghost use Rattle.tree_core.specs.FileTree.{IsTree, IsAbsent, IsDir, IsEmptyAt, CanDo, done, root_tree, kind_of, mode_of, is_dir_node};
    ghost use Rattle.tree_core.specs.Fields.{names_in};
    ghost use Rattle.mem_tree.specs.Slots.{node_of, timed, with_node, fits as fits_in};
    ghost use Rattle.mem_tree.specs.Times.{times_after};
    ghost use Rattle.mem_tree.specs.MemFields.{meta_of, fields_of};
    ghost use Rattle.mem_tree.specs.Stores.{tree_of, times_of, FilesBelow, bytes_at};

    /// A root of mode 0o755, and nothing else.
    pub fn new(alloc: Global) -> Result<Self, Memory>
        ensures tree { IfOk result (λ s. tree_of s ≡ root_tree) }
        ensures times { IfOk result (λ s. times_of s ≡ (λ q. pos 0)) }
    {
        let mut slots = SlotMap::new(alloc);
        let content = Content::Dir(0o755);
        slots.insert(&[], Slot { content, mtime: 0 })?;
        Ok(Store {
            alloc,
            slots,
            files: FileMap::new(alloc),
        })
    }

    /// An equal store, in memory of its own.
    pub fn copy(&self) -> Result<Self, Memory>
        ensures tree { IfOk result (λ s. tree_of s ≡ tree_of self.now) }
        ensures times { IfOk result (λ s. times_of s ≡ times_of self.now) }
    {
        Ok(Store {
            alloc: self.alloc,
            slots: self.slots.copy()?,
            files: self.files.copy()?,
        })
    }

    /// Does the call. `next` is the number of a file that it writes. It takes time O(log n), and a rename O(log n) for each
    /// entry that it moves.
    ///
    /// # Errors
    /// Where memory is refused nothing has changed.
    #[tactic(auto, unfolding(crate::specs::Stores::tree_of, crate::specs::Stores::times_of))]
    pub fn apply(&mut self, change: &Change, next: u64) -> Result<(), Memory>
        requires tree { IsTree (tree_of self.old) }
        requires can { CanDo change.now (tree_of self.old) }
        requires new { FilesBelow next (tree_of self.old) }
        ensures done { OnOk result (tree_of self.new ≡ done change.now next (tree_of self.old)) }
        ensures times { OnOk result (times_of self.new ≡
            times_after change.now (times_of self.old)) }
        ensures err { OnErr result ((tree_of self.new ≡ tree_of self.old) ×
            (times_of self.new ≡ times_of self.old)) }
    {
        apply(self.alloc, &mut self.slots, &mut self.files, change, next)
    }

    /// Whether the call can be done.
    pub fn can(&self, change: &Change) -> bool
        ensures { IsTrue result ↔ CanDo change.now (tree_of self.now) }
    {
        match change {
            Change::MakeDir(path, mode) | Change::WriteFile(path, _, mode) => {
                can_make_with_mode(self, path, *mode)
            }
            Change::MakeLink(path, target) => can_make_link(self, path, target),
            Change::MakeHard(path, old) => can_make_hard(self, path, old),
            Change::Rename(from, to) => can_rename(self, from, to),
            Change::SetMode(path, mode) => can_set_mode(self, path, *mode),
            Change::Remove(path) => can_remove(self, path),
            Change::RemoveDir(path) => can_remove_dir(self, path),
            Change::Sync => true,
        }
    }

    /// Whether nothing stands there, and a directory above it.
    pub fn can_make(&self, path: &Path) -> bool
        ensures can { result ≡ (not (is_some (get (tree_of self.now) path.now))
            && is_dir_node (get (tree_of self.now) (parent_of path.now))) }
        ensures named { AreNames path.now }
    {
        let names = path.names();
        self.slots.get(names).is_none() && self.is_dir(parent(names))
    }

    // Whether a directory stands there.
    fn is_dir(&self, names: &[Name]) -> bool
        ensures { result ≡ is_dir_node (get (tree_of self.now) names.now) }
    {
        match self.slots.get(names) {
            Some(slot) => slot.content.kind() == Kind::Dir,
            None => false,
        }
    }

    /// The kind of what stands there.
    pub fn kind(&self, path: &Path) -> Option<Kind>
        ensures { result ≡ option_map kind_of (get (tree_of self.now) path.now) }
    {
        Some(self.slots.get(path.names())?.content.kind())
    }

    /// The mode of what stands there, which for a link is 0o777.
    pub fn mode(&self, path: &Path) -> Option<u16>
        ensures { result ≡ option_map mode_of (get (tree_of self.now) path.now) }
    {
        let slot = self.slots.get(path.names())?;
        Some(mode(&self.files, &slot.content))
    }

    /// The bytes of the file there.
    pub fn bytes(&self, path: &Path) -> Option<&[u8]>
        ensures { option_map (λ b. b.now) result ≡ bytes_at (get (tree_of self.now) path.now) }
    {
        let number = number_at(&self.slots, path.names())?;
        Some(bytes(&self.files, number))
    }

    /// Whether nothing stands directly below a path.
    pub fn is_childless(&self, path: &Path) -> bool
        ensures { IsTrue result ↔ IsEmptyAt (tree_of self.now) path.now }
    {
        let names = path.names();
        self.slots.get(names).is_none() || !self.slots.has_child(names)
    }

    /// The names directly below a path, in the order of their bytes. It takes time for all that is below.
    pub fn names(&self, path: &Path) -> Result<Vec<Name>, Memory>
        ensures { IfOk result (λ names. names.items ≡ names_in (tree_of self.now) path.now) }
    {
        let mut found = Vec::new(self.alloc);
        if self.slots.get(path.names()).is_some() {
            let below = self.slots.below(path.names())?;
            for names in &below {
                if let Some(name) = child_name(path.names(), names) {
                    found.push(name.copy()?)?;
                }
            }
        }
        Ok(found)
    }

    /// The fields at a path. Where nothing stands, those of an empty directory of mode 0.
    pub fn meta(&self, path: &Path) -> Result<Meta, Memory>
        ensures { IfOk result (λ meta. meta ≡
            fields_of (tree_of self.now) (times_of self.now) path.now) }
    {
        match self.slots.get(path.names()) {
            Some(slot) => self.meta_of_slot(slot),
            None => self.meta_of_slot(&Slot {
                content: Content::Dir(0),
                mtime: 0,
            }),
        }
    }

    // The fields of a slot.
    fn meta_of_slot(&self, slot: &Slot) -> Result<Meta, Memory>
        ensures { IfOk result (λ meta. meta ≡
            meta_of (tree_of self.now) (node_of self.now.files slot.now.content) slot.now.mtime) }
    {
        let content = &slot.content;
        let mtime = slot.mtime;
        Ok(Meta {
            kind: content.kind(),
            mode: mode(&self.files, content),
            links: links(&self.files, content),
            owner: Text::copy_of(self.alloc, "u")?,
            group: Text::copy_of(self.alloc, "g")?,
            size: size(&self.files, content),
            mtime,
            number: content.number().unwrap_or(0),
            target: content.target(self.alloc)?,
        })
    }

    /// Whether both are one tree, whatever their times.
    pub fn same(&self, other: &Store) -> bool
        ensures { IsTrue result ↔ (tree_of self.now ≡ tree_of other.now) }
    {
        let mut others = other.slots.iter();
        for (names, slot) in self.slots.iter() {
            let Some((other_names, other_slot)) = others.next() else {
                return false;
            };
            if !is_same(names, other_names)
                || !shows_same(
                    &self.files,
                    &slot.content,
                    &other.files,
                    &other_slot.content,
                )
            {
                return false;
            }
        }
        others.next().is_none()
    }

    /// Whether no other file has the number of the node.
    pub fn fits(&self, node: &Node) -> bool
        ensures { result ≡ fits_in self.now.files node.now }
    {
        fits(&self.files, node)
    }

    /// Puts a node at an absent path in a directory. A file of its number that is kept has its bytes and mode.
    #[tactic(auto, unfolding(crate::specs::Stores::tree_of, crate::specs::Stores::times_of))]
    pub fn add(&mut self, path: &Path, node: &Node, mtime: i64) -> Result<(), Memory>
        requires absent { IsAbsent (tree_of self.old) path.now }
        requires parent { IsDir (tree_of self.old) (parent_of path.now) }
        requires fits { IsTrue (fits_in self.old.files node.now) }
        ensures tree { OnOk result (tree_of self.new ≡
            insert (tree_of self.old) path.now node.now) }
        ensures times { OnOk result (times_of self.new ≡ timed path.now mtime (times_of self.old)) }
        ensures files { OnOk result (self.new.files ≡ with_node node.now self.old.files) }
    {
        put_node(&mut self.slots, &mut self.files, path.names(), node, mtime)
    }
}

// The names without the last one.
fn parent(names: &[Name]) -> &[Name]
    ensures { result.now ≡ parent_of names.now }
{
    &names[..names.len().saturating_sub(1)]
}
