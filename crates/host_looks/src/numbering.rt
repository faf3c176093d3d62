// The numbers of files. Those of a file's hard links are one, and those of different files differ.
use std::alloc::Global;
use std::collections::BTreeMap;
use std::fs::Metadata;
use std::os::unix::fs::MetadataExt;
use tree_core::LookEnd;

// The first number that is no inode of the root's device.
const FIRST_GIVEN: u64 = 1 << 63;

/// The numbers of the files that have no inode below 2^63 on the root's device, by device and inode, from 0 in the order in which
/// they were met.
#[derive(Drop)]
pub struct FileNumbers {
    given: BTreeMap<(u64, u64), u64>,
}

impl FileNumbers {
    /// None so far.
    pub fn new(alloc: Global) -> Self {
        FileNumbers {
            given: BTreeMap::new(alloc),
        }
    }

    /// The number of a file: its inode where it is on the root's device, else one of its own from 2^63 up.
    pub fn number_of(&mut self, is_on_root: bool, data: &Metadata) -> Result<u64, LookEnd> {
        if is_on_root && data.ino() < FIRST_GIVEN {
            return Ok(data.ino());
        }
        let key = (data.dev(), data.ino());
        if let Some(number) = self.given.get(&key) {
            return given_number(*number);
        }
        let number = self.given.len() as u64;
        self.given.insert(key, number)?;
        given_number(number)
    }
}

fn given_number(number: u64) -> Result<u64, LookEnd> {
    match FIRST_GIVEN.checked_add(number) {
        Some(number) => Ok(number),
        None => Err(LookEnd::Failed),
    }
}
