// The file systems on which the tree stands: the one of the root, and those that are mounted below it.
use crate::children::is_synced_by_directories;
use crate::moves::moved_path;
use dired_text::{Name, Path};
use std::alloc::Global;
use std::collections::BTreeMap;
use std::mem;
use std::process::Processes;
use tree_core::LookEnd;

/// The file systems that were met so far, each by the number of its device.
#[derive(Drop)]
pub struct FileSystems {
    /// The device of the root.
    root: u64,
    // The path at which each other device was met first.
    others: BTreeMap<u64, Path>,
    // Whether the entries of a directory are durable once it was synced, by device, where that was asked.
    synced_by_directories: BTreeMap<u64, bool>,
    // Whether a path was lost in a rename for want of memory.
    lost: bool,
}

impl FileSystems {
    /// That of the root alone.
    pub fn new(alloc: Global, root: u64) -> Self {
        FileSystems {
            root,
            others: BTreeMap::new(alloc),
            synced_by_directories: BTreeMap::new(alloc),
            lost: false,
        }
    }

    /// Whether this is the device of the root.
    pub fn is_root(&self, device: u64) -> bool {
        device == self.root
    }

    /// Whether each path at which another device was met is known.
    pub fn are_known(&self) -> bool {
        !self.lost
    }

    /// Notes the device that was met at a path.
    pub fn meet(&mut self, alloc: Global, device: u64, names: &[Name]) -> Result<(), LookEnd> {
        if device == self.root || self.others.contains_key(&device) {
            return Ok(());
        }
        let Some(path) = Path::join(alloc, names)? else {
            return Err(LookEnd::Failed);
        };
        self.others.insert(device, path)?;
        Ok(())
    }

    /// The paths at which the other devices were met.
    pub fn others(&self, alloc: Global) -> Result<Vec<Path>, LookEnd> {
        let mut paths = Vec::new(alloc);
        for path in self.others.values() {
            paths.push(path.copy()?)?;
        }
        Ok(paths)
    }

    /// Notes where the other devices are met behind a rename of `from` to `to`.
    pub fn moved(&mut self, alloc: Global, from: &Path, to: &Path) {
        let before = mem::replace(&mut self.others, BTreeMap::new(alloc));
        for (device, path) in before {
            if self.move_one(alloc, device, &path, from, to).is_err() {
                self.lost = true;
            }
        }
    }

    fn move_one(
        &mut self,
        alloc: Global,
        device: u64,
        path: &Path,
        from: &Path,
        to: &Path,
    ) -> Result<(), LookEnd> {
        match moved_path(alloc, path, from, to)? {
            Some(place) => {
                self.others.insert(device, place)?;
                Ok(())
            }
            None => Err(LookEnd::Failed),
        }
    }

    /// Whether the entries of a directory of this device are durable once it was synced. The host is asked once for each device, of
    /// what stands at this path.
    pub fn is_synced_by_directories<R: Processes>(
        &mut self,
        rt: &R,
        alloc: Global,
        device: u64,
        names: &[Name],
    ) -> Result<bool, LookEnd> {
        if let Some(known) = self.synced_by_directories.get(&device) {
            return Ok(*known);
        }
        let answer = is_synced_by_directories(rt, alloc, names)?;
        self.synced_by_directories.insert(device, answer)?;
        Ok(answer)
    }

    /// The same of the root's device.
    pub fn is_root_synced_by_directories<R: Processes>(
        &mut self,
        rt: &R,
        alloc: Global,
    ) -> Result<bool, LookEnd> {
        self.is_synced_by_directories(rt, alloc, self.root, &[])
    }
}
