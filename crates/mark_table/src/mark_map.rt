// One mark at each path.
ghost use Rattle.std.specs.Prelude.{◌≡◌, IfOk, IfSome, OnOk, OnErr, Some, None, count_by, map as each, ◌==◌};
ghost use Rattle.std.specs.List.{filter};
ghost use Rattle.std.specs.FinMap as map;
ghost use Rattle.mark_table.specs.PathMarks.{IsMark, cleared, has_mark, marked, replaced, with_each};

use dired_text::{Memory, Path};
use std::alloc::Global;
use std::collections::BTreeMap;
use std::marker::Model;

/// Marks by path, each a byte from 33 to 126.
#[derive(Drop)]
pub struct MarkMap {
    alloc: Global,
    marks: BTreeMap<Path, u8>,
}

impl Model for MarkMap {
    ghost use Rattle.std.specs.List.{All};
    ghost use Rattle.std.specs.BTreeMap.{values};
    ghost use Rattle.std.specs.FinMap.{from_entries};
    ghost use Rattle.mark_table.specs.PathMarks.{PathMarks, IsMark};
    ghost use Rattle.mark_table.specs.Tables.{path_marks_code};

    ghost Value = { PathMarks };

    ghost coded = { path_marks_code };

    ghost view = { λ m. from_entries m.marks.entries };

    ghost invariant = { λ m. All IsMark (values m.marks) };
}

impl MarkMap {
    /// No marks.
    pub fn new(alloc: Global) -> Self
        ensures { result ≡ map.empty }
    {
        MarkMap {
            alloc,
            marks: BTreeMap::new(alloc),
        }
    }

    /// The mark of a path.
    pub fn get(&self, path: &Path) -> Option<u8>
        ensures value { result ≡ map.get self.now path.now }
        ensures mark { IfSome result IsMark }
    {
        self.marks.get(path).copied()
    }

    /// Gives a path this mark.
    pub fn insert(&mut self, path: Path, mark: u8) -> Result<(), Memory>
        requires { IsMark mark }
        ensures ok { OnOk result (self.new ≡ map.insert self.old path mark) }
        ensures err { OnErr result (self.new ≡ self.old) }
    {
        self.marks.insert(path, mark)?;
        Ok(())
    }

    /// Takes the mark of a path away.
    pub fn remove(&mut self, path: &Path)
        ensures { self.new ≡ map.remove self.old path.now }
    {
        let _ = self.marks.remove(path);
    }

    /// Gives a path this mark, or none. Takes no memory where it is none.
    pub fn put(&mut self, path: &Path, mark: Option<u8>) -> Result<(), Memory>
        requires { IfSome mark IsMark }
        ensures ok { OnOk result (self.new ≡ marked self.old path.now mark) }
        ensures err { OnErr result (self.new ≡ self.old) }
    {
        match mark {
            None => {
                self.remove(path);
                Ok(())
            }
            Some(mark) => self.insert(path.copy()?, mark),
        }
    }

    /// Those of these paths that have this mark, or none, in their order.
    pub fn those<'a>(&self, paths: &'a [Path], mark: Option<u8>) -> Result<Vec<&'a Path>, Memory>
        ensures { IfOk result (λ v. each (λ p. p.now) v.items ≡
            filter (has_mark self.now mark) paths.now) }
    {
        let mut found = Vec::with_capacity(self.alloc, paths.len())?;
        for path in paths {
            if self.get(path) == mark {
                found.push(path)?;
            }
        }
        Ok(found)
    }

    /// Gives each of these paths this mark. After a refusal some of them may have it, and no other path has changed.
    pub fn insert_each(&mut self, paths: &[&Path], mark: u8) -> Result<(), Memory>
        requires { IsMark mark }
        ensures ok { OnOk result (self.new ≡
            with_each (λ _. Some mark) (each (λ p. p.now) paths.now) self.old) }
        ensures err { OnErr result (with_each (λ _. None) (each (λ p. p.now) paths.now) self.new ≡
            with_each (λ _. None) (each (λ p. p.now) paths.now) self.old) }
    {
        for path in paths {
            self.insert(path.copy()?, mark)?;
        }
        Ok(())
    }

    /// Takes the mark of each of these paths away.
    pub fn remove_each(&mut self, paths: &[&Path])
        ensures { self.new ≡ with_each (λ _. None) (each (λ p. p.now) paths.now) self.old }
    {
        for path in paths {
            self.remove(path);
        }
    }

    /// Takes every mark away.
    pub fn clear(&mut self)
        ensures { self.new ≡ map.empty }
    {
        self.marks.clear();
    }

    /// Takes this mark away wherever it stands.
    pub fn clear_mark(&mut self, mark: u8)
        ensures { self.new ≡ cleared mark self.old }
    {
        self.marks.retain(|_path, found| *found != mark);
    }

    /// Puts one mark in the place of another.
    pub fn replace(&mut self, old: u8, new: u8)
        requires { IsMark new }
        ensures { self.new ≡ replaced old new self.old }
    {
        self.marks.retain(|_path, mark| {
            if *mark == old {
                *mark = new;
            }
            true
        });
    }

    /// How many paths have this mark.
    pub fn count(&self, mark: u8) -> u64
        ensures { result ≡ count_by (λ b. b == mark) (map.values self.now) }
    {
        self.marks.values().filter(|found| **found == mark).count() as u64
    }

    /// The marked paths, in path order.
    pub fn paths(&self) -> Result<Vec<Path>, Memory>
        ensures { IfOk result (λ v. v.items ≡ map.keys self.now) }
    {
        let mut paths = Vec::with_capacity(self.alloc, self.marks.len())?;
        for path in self.marks.keys() {
            paths.push(path.copy()?)?;
        }
        Ok(paths)
    }

    /// Equal marks, in memory of their own.
    pub fn copy(&self) -> Result<Self, Memory>
        ensures { IfOk result (λ m. m ≡ self.now) }
    {
        let mut copy = MarkMap::new(self.alloc);
        for (path, mark) in self.marks.iter() {
            copy.insert(path.copy()?, *mark)?;
        }
        Ok(copy)
    }
}
