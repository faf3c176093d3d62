// The tree of a case, as its rows have said it.
use crate::RowFault;
use mem_tree::{BuildFault, Entry, MemTree};
use std::alloc::Global;

/// The entries of a tree, and the line of each.
#[derive(Drop)]
pub struct TreeRows {
    alloc: Global,
    entries: Vec<Entry>,
    lines: Vec<u64>,
}

impl TreeRows {
    /// No entries.
    pub fn new(alloc: Global) -> Self {
        TreeRows {
            alloc,
            entries: Vec::new(alloc),
            lines: Vec::new(alloc),
        }
    }

    /// Adds the entry of a line.
    pub fn push(&mut self, line: u64, entry: Entry) -> Result<(), RowFault> {
        self.entries.push(entry)?;
        self.lines.push(line)?;
        Ok(())
    }

    /// The tree of the entries.
    ///
    /// # Errors
    /// `BadAt` with the line of the first entry that can't stand in it.
    pub fn build(&self) -> Result<MemTree, RowFault> {
        match MemTree::new(self.alloc, &self.entries) {
            Ok(tree) => Ok(tree),
            Err(BuildFault::BadEntry(place)) => Err(self.bad_entry(place)),
            Err(BuildFault::Memory) => Err(RowFault::Memory),
        }
    }

    // The fault of the entry at this place.
    fn bad_entry(&self, place: u64) -> RowFault {
        match self.lines.get(place as usize) {
            Some(line) => RowFault::BadAt(*line),
            None => RowFault::Bad,
        }
    }
}
