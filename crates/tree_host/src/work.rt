// The tree of the host without its count of failed calls: what is kept between the calls, and the looks.
ghost use Rattle.std.specs.Prelude.{◌≡◌, ◌≤◌, true, false, OnOk, IsErr, IfOk, IfSome, vec_len};
ghost use Rattle.std.specs.BTreeSet.{IsEmpty};
ghost use Rattle.tree_core.specs.FileTree.{IsMode};
ghost use Rattle.tree_core.specs.Fields.{IsMeta, RiseStrictly};

use crate::reminding::Reminder;
use crate::syncing::{Written, sync_each, sync_systems};
use crate::touched::Touched;
use dired_text::{Name, Path};
use host_looks::{
    Found, Known, Looks, has_mode, is_empty_at, kind_of, meta_at, mode_of, names_at, open_found,
    read_all,
};
use std::alloc::Global;
use std::process::Processes;
use std::rt::Files;
use tree_core::{Kind, LookEnd, Meta};

/// The tree of the host without its count of failed calls.
#[derive(Drop)]
pub struct Work<R: Files + Processes + AllocGlobal + Drop> {
    pub rt: R,
    pub looks: Looks,
    pub known: Known,
    pub touched: Touched,
    /// Whether a sync has failed.
    pub broken: bool,
    /// Whether a reminder may stand, of this run or of one that was killed.
    pub is_reminded: bool,
    /// The bits that the host takes from the mode of what is made, once it was asked.
    pub mask: Option<u16>,
}

impl<R: Files + Processes + AllocGlobal + Drop> Work<R> {
    /// Takes the working directory as root. What others wrote there before counts as touched.
    pub fn open(rt: R) -> Result<Self, LookEnd>
        ensures all { IfOk result (λ work. work.touched.all ≡ true) }
        ensures broken { IfOk result (λ work. work.broken ≡ false) }
    {
        let alloc = rt.alloc();
        Ok(Work {
            looks: Looks::open(&rt, alloc)?,
            known: Known::new(alloc),
            touched: Touched::everything(alloc),
            broken: false,
            is_reminded: true,
            mask: None,
            rt,
        })
    }

    /// What stands at a path, or None.
    pub fn look(&mut self, names: &[Name]) -> Result<Option<Found>, LookEnd>
        ensures touched { self.new.touched ≡ self.old.touched }
        ensures broken { self.new.broken ≡ self.old.broken }
        ensures reminded { self.new.is_reminded ≡ self.old.is_reminded }
    {
        self.looks.look(&self.rt, self.rt.alloc(), names)
    }

    /// The kind of what stands at a path, or None. It fails at a pipe, a socket or a device.
    pub fn kind(&mut self, path: &Path) -> Result<Option<Kind>, LookEnd>
        ensures touched { self.new.touched ≡ self.old.touched }
        ensures broken { self.new.broken ≡ self.old.broken }
    {
        match self.look(path.names())? {
            None => Ok(None),
            Some(found) => match kind_of(&found.data) {
                Some(kind) => Ok(Some(kind)),
                None => Err(LookEnd::Failed),
            },
        }
    }

    /// The mode of a directory or a file. It fails where none stands.
    pub fn mode(&mut self, path: &Path) -> Result<u16, LookEnd>
        ensures mode { IfOk result (λ mode. IsMode mode) }
        ensures touched { self.new.touched ≡ self.old.touched }
        ensures broken { self.new.broken ≡ self.old.broken }
    {
        match self.look(path.names())? {
            Some(found) if has_mode(&found.data) => Ok(mode_of(&found.data)),
            _ => Err(LookEnd::Failed),
        }
    }

    /// Whether a directory has no entries.
    pub fn is_empty(&mut self, path: &Path) -> Result<bool, LookEnd>
        ensures touched { self.new.touched ≡ self.old.touched }
        ensures broken { self.new.broken ≡ self.old.broken }
        ensures reminded { self.new.is_reminded ≡ self.old.is_reminded }
    {
        is_empty_at(&self.rt, &mut self.looks, self.rt.alloc(), path.names())
    }

    /// The fields of what stands at a path.
    pub fn meta(&mut self, alloc: Global, path: &Path) -> Result<Meta, LookEnd>
        ensures meta { IfOk result (λ meta. IsMeta meta) }
        ensures touched { self.new.touched ≡ self.old.touched }
        ensures broken { self.new.broken ≡ self.old.broken }
    {
        meta_at(
            &self.rt,
            &mut self.looks,
            &mut self.known,
            alloc,
            path.names(),
        )
    }

    /// The names in a directory.
    pub fn names(&mut self, alloc: Global, path: &Path) -> Result<Vec<Name>, LookEnd>
        ensures names { IfOk result (λ names. RiseStrictly names.items) }
        ensures touched { self.new.touched ≡ self.old.touched }
        ensures broken { self.new.broken ≡ self.old.broken }
    {
        names_at(&self.rt, &mut self.looks, alloc, path.names())
    }

    /// The bytes of a file, or None where there are more than the limit.
    pub fn read(
        &mut self,
        alloc: Global,
        path: &Path,
        limit: u64,
    ) -> Result<Option<Vec<u8>>, LookEnd>
        ensures within { IfOk result (λ found. IfSome found (λ bytes. vec_len bytes ≤ limit)) }
        ensures touched { self.new.touched ≡ self.old.touched }
        ensures broken { self.new.broken ≡ self.old.broken }
    {
        match self.look(path.names())? {
            Some(found) if found.data.is_file() => {
                if found.data.len() > limit {
                    return Ok(None);
                }
                match open_found(&self.rt, &found) {
                    Some(mut file) => read_all(alloc, &mut file, limit),
                    None => Err(LookEnd::Failed),
                }
            }
            _ => Err(LookEnd::Failed),
        }
    }

    /// Does what a reminder tells that was left, and then makes all changes durable. Where a sync has failed, each later one fails: the
    /// host tells of a lost write only once.
    pub fn sync(&mut self, reminder: Option<&Reminder>) -> Result<(), LookEnd>
        ensures stays_broken { self.old.broken ≡ true → IsErr result }
        ensures breaks { IsErr result → self.new.broken ≡ true }
        ensures empty { OnOk result (IsEmpty self.new.touched.paths ×
            (self.new.touched.all ≡ false)) }
        ensures forgotten { OnOk result (self.new.is_reminded ≡ false) }
    {
        if self.broken {
            return Err(LookEnd::Failed);
        }
        self.broken = true;
        self.do_reminded(reminder)?;
        self.sync_touched()?;
        self.touched = Touched::nothing(self.rt.alloc());
        self.broken = false;
        Ok(())
    }

    fn sync_touched(&mut self) -> Result<(), LookEnd>
        ensures broken { self.new.broken ≡ self.old.broken }
        ensures reminded { self.new.is_reminded ≡ self.old.is_reminded }
    {
        let alloc = self.rt.alloc();
        if !self.touched.all
            && sync_each(&self.rt, &mut self.looks, alloc, &self.touched.paths)? == Written::Done
        {
            return Ok(());
        }
        sync_systems(&self.rt, &mut self.looks, alloc)
    }
}
