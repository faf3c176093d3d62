// The files by their numbers.
ghost use Rattle.std.specs.Prelude.{◌≡◌, Some, None, IfOk, OnOk, OnErr};
ghost use Rattle.std.specs.Option.{option_copied};
ghost use Rattle.std.specs.FinMap as fin;

use dired_text::{Bytes, Memory};
use std::alloc::Global;
use std::collections::BTreeMap;
use std::marker::Model;

/// A file, and how many paths have it.
#[derive(Drop)]
pub struct FileBody {
    pub bytes: Bytes,
    pub mode: u16,
    pub paths: u64,
}

impl FileBody {
    /// An equal body, in memory of its own.
    pub fn copy(&self) -> Result<Self, Memory>
        ensures { IfOk result (λ b. b ≡ self.now) }
    {
        Ok(FileBody {
            bytes: self.bytes.copy()?,
            mode: self.mode,
            paths: self.paths,
        })
    }
}

/// The files by number.
#[derive(Drop)]
pub struct FileMap {
    alloc: Global,
    files: BTreeMap<u64, FileBody>,
}

impl Model for FileMap {
    ghost use Rattle.std.specs.Prelude.{◌≡◌, true};
    ghost use Rattle.std.specs.FinMap.{from_entries, is_sorted};
    ghost use Rattle.std.specs.Ordering.{nat_cmp};
    ghost use Rattle.mem_tree.specs.Slots.{Files, files_code};

    ghost Value = { Files };

    ghost coded = { files_code };

    ghost view = { λ m. from_entries m.files.entries };

    ghost invariant = { λ m. is_sorted nat_cmp m.files.entries ≡ true };
}

impl FileMap {
    ghost use Rattle.mem_tree.specs.Slots.{with_mode, with_paths, without_path};

    /// No files.
    pub fn new(alloc: Global) -> Self
        ensures { result ≡ fin.empty }
    {
        FileMap {
            alloc,
            files: BTreeMap::new(alloc),
        }
    }

    /// The file of this number.
    pub fn get(&self, number: u64) -> Option<&FileBody>
        ensures { option_copied result ≡ fin.get self.now number }
    {
        self.files.get(&number)
    }

    /// Puts a file in, over the one that may have this number.
    pub fn insert(&mut self, number: u64, body: FileBody) -> Result<(), Memory>
        ensures ok { OnOk result (self.new ≡ fin.insert self.old number body) }
        ensures err { OnErr result (self.new ≡ self.old) }
    {
        self.files.insert(number, body)?;
        Ok(())
    }

    /// Gives the file of this number another mode, where there is one.
    pub fn set_mode(&mut self, number: u64, mode: u16)
        ensures { self.new ≡ with_mode number mode self.old }
    {
        if let Some(body) = self.files.get_mut(&number) {
            body.mode = mode;
        }
    }

    /// Gives the file of this number another count of paths, where there is one.
    pub fn set_paths(&mut self, number: u64, paths: u64)
        ensures { self.new ≡ with_paths number paths self.old }
    {
        if let Some(body) = self.files.get_mut(&number) {
            body.paths = paths;
        }
    }

    /// Takes the file of this number out.
    pub fn remove(&mut self, number: u64)
        ensures { self.new ≡ fin.remove self.old number }
    {
        let _ = self.files.remove(&number);
    }

    /// Takes one path of the file of this number away, and the file with the last one.
    pub fn drop_path(&mut self, number: u64)
        ensures { self.new ≡ without_path number self.old }
    {
        let Some(body) = self.get(number) else {
            return;
        };
        let paths = body.paths;
        if paths <= 1 {
            self.remove(number);
        } else {
            self.set_paths(number, paths - 1);
        }
    }

    /// Equal files, in memory of their own.
    pub fn copy(&self) -> Result<Self, Memory>
        ensures { IfOk result (λ m. m ≡ self.now) }
    {
        let mut all = FileMap::new(self.alloc);
        for (number, body) in &self.files {
            all.insert(*number, body.copy()?)?;
        }
        Ok(all)
    }
}
