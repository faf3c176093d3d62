// The changing calls: what each looks at first, and what it notes. Nothing of the host changes but by the calls of `doing`.
ghost use Rattle.std.specs.Prelude.{◌≡◌, OnOk};
ghost use Rattle.dired_text.specs.Paths.{parent};
ghost use Rattle.tree_host.specs.Notes.{IsNoted, KeepsNotes};

use crate::doing;
use crate::reminding::Reminder;
use crate::work::Work;
use dired_text::{Path, rest_below};
use host_looks::{has_mode, is_target, kind_of, mode_of};
use std::process::Processes;
use std::rt::Files;
use tree_core::LookEnd;

// The greatest mode: permission bits with set-user, set-group and sticky.
const MAX_MODE: u16 = 0o7777;

impl<R: Files + Processes + AllocGlobal + Drop> Work<R> {
    // Whether nothing stands at a path, and a directory above it.
    fn is_free(&mut self, path: &Path) -> Result<bool, LookEnd>
        ensures touched { self.new.touched ≡ self.old.touched }
        ensures broken { self.new.broken ≡ self.old.broken }
    {
        let Some((_, above)) = path.names().split_last() else {
            return Ok(false);
        };
        let alloc = self.rt.alloc();
        Ok(self.looks.is_way(&self.rt, alloc, above)? && self.look(path.names())?.is_none())
    }

    // Fails where something stands at a path, or no directory above it. Then notes that directory.
    fn free_and_noted(&mut self, path: &Path) -> Result<(), LookEnd>
        ensures noted { OnOk result (IsNoted self.new.touched (parent path.now)) }
        ensures kept { KeepsNotes self.old.touched self.new.touched }
        ensures broken { self.new.broken ≡ self.old.broken }
    {
        if !self.is_free(path)? {
            return Err(LookEnd::Failed);
        }
        let alloc = self.rt.alloc();
        self.touched.note_parent(alloc, path);
        Ok(())
    }

    /// Makes an empty directory of this mode, with a reminder where one is wanted.
    pub fn make_dir(
        &mut self,
        reminder: Option<&Reminder>,
        path: &Path,
        mode: u16,
    ) -> Result<(), LookEnd>
        ensures noted { OnOk result (IsNoted self.new.touched (parent path.now) ×
            IsNoted self.new.touched path.now) }
        ensures kept { KeepsNotes self.old.touched self.new.touched }
        ensures broken { self.new.broken ≡ self.old.broken }
    {
        if mode > MAX_MODE {
            return Err(LookEnd::Failed);
        }
        self.free_and_noted(path)?;
        self.touched.note(path);
        match self.reminder_for(reminder, path, mode)? {
            Some(reminder) => self.make_reminded(reminder, path, mode),
            None => self.make_with_mode(path, mode),
        }
    }

    /// Makes an empty directory, and sets its mode where the host gave it another one. Where that fails, it is taken back.
    pub fn make_with_mode(&mut self, path: &Path, mode: u16) -> Result<(), LookEnd>
        requires { IsNoted self.old.touched (parent path.now) × IsNoted self.old.touched path.now }
        ensures touched { self.new.touched ≡ self.old.touched }
        ensures broken { self.new.broken ≡ self.old.broken }
        ensures reminded { self.new.is_reminded ≡ self.old.is_reminded }
    {
        doing::make_dir(&self.rt, &self.touched, path, mode)?;
        match self.fix_mode(path, mode) {
            Ok(()) => Ok(()),
            Err(end) => {
                let _ = doing::remove_dir(&self.rt, &self.touched, path);
                Err(end)
            }
        }
    }

    // Sets the mode of a new directory where the host gave another one, by its mask or from the directory above.
    fn fix_mode(&mut self, path: &Path, mode: u16) -> Result<(), LookEnd>
        requires { IsNoted self.old.touched path.now }
        ensures touched { self.new.touched ≡ self.old.touched }
        ensures broken { self.new.broken ≡ self.old.broken }
        ensures reminded { self.new.is_reminded ≡ self.old.is_reminded }
    {
        match self.look(path.names())? {
            Some(found) if found.data.is_dir() => {
                if mode_of(&found.data) == mode {
                    return Ok(());
                }
                doing::set_mode(&self.rt, &self.touched, path, &found, mode)
            }
            _ => Err(LookEnd::Failed),
        }
    }

    /// Makes a symbolic link.
    pub fn make_link(&mut self, path: &Path, target: &str) -> Result<(), LookEnd>
        ensures noted { OnOk result (IsNoted self.new.touched (parent path.now)) }
        ensures kept { KeepsNotes self.old.touched self.new.touched }
        ensures broken { self.new.broken ≡ self.old.broken }
    {
        if !is_target(target) {
            return Err(LookEnd::Failed);
        }
        self.free_and_noted(path)?;
        doing::make_link(&self.rt, &self.touched, path, target)
    }

    /// Gives the file at `old` one more path.
    pub fn make_hard(&mut self, path: &Path, old: &Path) -> Result<(), LookEnd>
        ensures noted { OnOk result (IsNoted self.new.touched (parent path.now)) }
        ensures kept { KeepsNotes self.old.touched self.new.touched }
        ensures broken { self.new.broken ≡ self.old.broken }
    {
        match self.look(old.names())? {
            Some(found) if found.data.is_file() => {}
            _ => return Err(LookEnd::Failed),
        }
        self.free_and_noted(path)?;
        doing::make_hard(&self.rt, &self.touched, path, old)
    }

    /// Makes a file of these bytes and this mode.
    pub fn write_file(&mut self, path: &Path, bytes: &[u8], mode: u16) -> Result<(), LookEnd>
        ensures noted { OnOk result (IsNoted self.new.touched (parent path.now)) }
        ensures kept { KeepsNotes self.old.touched self.new.touched }
        ensures broken { self.new.broken ≡ self.old.broken }
    {
        if mode > MAX_MODE {
            return Err(LookEnd::Failed);
        }
        self.free_and_noted(path)?;
        doing::write_file(&self.rt, &self.touched, path, bytes, mode)
    }

    /// Moves what stands at `from` where nothing stands: the host's own call replaces what is there.
    pub fn rename(&mut self, from: &Path, to: &Path) -> Result<(), LookEnd>
        ensures noted { OnOk result (IsNoted self.new.touched (parent from.now) ×
            IsNoted self.new.touched (parent to.now)) }
        ensures broken { self.new.broken ≡ self.old.broken }
    {
        let alloc = self.rt.alloc();
        if from.names().is_empty() || rest_below(from.names(), to.names()).is_some() {
            return Err(LookEnd::Failed);
        }
        let Some(found) = self.look(from.names())? else {
            return Err(LookEnd::Failed);
        };
        if kind_of(&found.data).is_none() {
            return Err(LookEnd::Failed);
        }
        self.free_and_noted(to)?;
        self.touched.note_parent(alloc, from);
        if found.data.is_dir() {
            self.touched.note(from);
        }
        self.looks.forget_below(from.names());
        doing::rename(&self.rt, alloc, &mut self.touched, from, to)?;
        self.looks.systems.moved(alloc, from, to);
        self.touched.note_parent(alloc, from);
        self.touched.note_parent(alloc, to);
        Ok(())
    }

    /// Gives a directory or a file another mode.
    pub fn set_mode(&mut self, path: &Path, mode: u16) -> Result<(), LookEnd>
        ensures noted { OnOk result (IsNoted self.new.touched path.now) }
        ensures kept { KeepsNotes self.old.touched self.new.touched }
        ensures broken { self.new.broken ≡ self.old.broken }
    {
        if mode > MAX_MODE {
            return Err(LookEnd::Failed);
        }
        match self.look(path.names())? {
            Some(found) if has_mode(&found.data) => {
                self.touched.note(path);
                doing::set_mode(&self.rt, &self.touched, path, &found, mode)
            }
            _ => Err(LookEnd::Failed),
        }
    }

    /// Takes a file's path or a link away.
    pub fn remove(&mut self, path: &Path) -> Result<(), LookEnd>
        ensures noted { OnOk result (IsNoted self.new.touched (parent path.now)) }
        ensures kept { KeepsNotes self.old.touched self.new.touched }
        ensures broken { self.new.broken ≡ self.old.broken }
    {
        match self.look(path.names())? {
            Some(found) if found.data.is_file() || found.data.is_symlink() => {
                self.touched.note_parent(self.rt.alloc(), path);
                doing::remove(&self.rt, &self.touched, path)
            }
            _ => Err(LookEnd::Failed),
        }
    }

    /// Takes an empty directory away. The host itself refuses one that has entries.
    pub fn remove_dir(&mut self, path: &Path) -> Result<(), LookEnd>
        ensures noted { OnOk result (IsNoted self.new.touched (parent path.now)) }
        ensures kept { KeepsNotes self.old.touched self.new.touched }
        ensures broken { self.new.broken ≡ self.old.broken }
    {
        if path.names().is_empty() {
            return Err(LookEnd::Failed);
        }
        match self.look(path.names())? {
            Some(found) if found.data.is_dir() => {
                self.touched.note_parent(self.rt.alloc(), path);
                self.looks.forget_below(path.names());
                doing::remove_dir(&self.rt, &self.touched, path)
            }
            _ => Err(LookEnd::Failed),
        }
    }
}
