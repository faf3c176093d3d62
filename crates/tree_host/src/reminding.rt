// Reminders. Where the host gives a new directory its mode by two calls, a kill between them would leave it with another mode, and nobody
// could tell. So a link that leads to the directory stands until it has its mode. What a killed run left is done by the next one, and
// nothing of the host changes but by the calls of `doing`.
ghost use Rattle.std.specs.Prelude.{◌≡◌, true, false, OnOk};
ghost use Rattle.dired_text.specs.Paths.{parent};
ghost use Rattle.tree_host.specs.Notes.{IsNoted, KeepsNotes};

use crate::doing;
use crate::mask::mask_of_process;
use crate::work::Work;
use dired_text::{Name, NameError, Path, resolve};
use host_looks::{Found, mode_of};
use std::alloc::Global;
use std::fs;
use std::process::Processes;
use std::rt::Files;
use tree_core::LookEnd;

// The set-group bit, which Linux gives a new directory from the one above (Linux, "inode").
const SET_GROUP: u16 = 0o2000;

// The bits that Linux gives no new directory, whatever is asked (Linux, "mkdir").
const NEVER_MADE: u16 = 0o6000;

/// The place of the link, and the mode of the directories that it tells of.
#[derive(Drop)]
pub struct Reminder {
    pub place: Path,
    pub mode: u16,
}

impl<R: Files + Processes + AllocGlobal + Drop> Work<R> {
    /// The reminder that must stand while a directory is made: none where it gets its mode by one call, and where no reminder is left.
    pub fn reminder_for<'a>(
        &mut self,
        reminder: Option<&'a Reminder>,
        path: &Path,
        mode: u16,
    ) -> Result<Option<&'a Reminder>, LookEnd>
        ensures touched { self.new.touched ≡ self.old.touched }
        ensures broken { self.new.broken ≡ self.old.broken }
    {
        let Some(reminder) = reminder else {
            return Ok(None);
        };
        if mode != reminder.mode || self.is_made_with(path, mode)? {
            return Ok(None);
        }
        // Only where the directory of the reminders stands.
        match reminder.place.names().split_last() {
            Some((_, above)) if self.is_dir(above)? => Ok(Some(reminder)),
            _ => Ok(None),
        }
    }

    // Whether the call that makes a directory gives it this mode, as far as is known. A default access control list above isn't seen.
    fn is_made_with(&mut self, path: &Path, mode: u16) -> Result<bool, LookEnd>
        ensures touched { self.new.touched ≡ self.old.touched }
        ensures broken { self.new.broken ≡ self.old.broken }
    {
        if mode & (self.mask() | NEVER_MADE) != 0 {
            return Ok(false);
        }
        let Some((_, above)) = path.names().split_last() else {
            return Ok(true);
        };
        match self.look(above)? {
            Some(found) => Ok(mode_of(&found.data) & SET_GROUP == 0),
            None => Ok(true),
        }
    }

    // The bits that the host takes from what is made. It is asked once.
    fn mask(&mut self) -> u16
        ensures touched { self.new.touched ≡ self.old.touched }
        ensures broken { self.new.broken ≡ self.old.broken }
    {
        if let Some(mask) = self.mask {
            return mask;
        }
        let mask = mask_of_process(&self.rt, self.rt.alloc());
        self.mask = Some(mask);
        mask
    }

    fn is_dir(&mut self, names: &[Name]) -> Result<bool, LookEnd>
        ensures touched { self.new.touched ≡ self.old.touched }
        ensures broken { self.new.broken ≡ self.old.broken }
    {
        match self.look(names)? {
            Some(found) => Ok(found.data.is_dir()),
            None => Ok(false),
        }
    }

    /// Makes a directory, with its reminder until it has its mode. Where the reminder can't be removed, the directory is taken back.
    pub fn make_reminded(
        &mut self,
        reminder: &Reminder,
        path: &Path,
        mode: u16,
    ) -> Result<(), LookEnd>
        requires { IsNoted self.old.touched (parent path.now) × IsNoted self.old.touched path.now }
        ensures kept { KeepsNotes self.old.touched self.new.touched }
        ensures broken { self.new.broken ≡ self.old.broken }
        ensures forgotten { OnOk result (self.new.is_reminded ≡ false) }
    {
        self.do_reminded(Some(reminder))?;
        self.remind(reminder, path)?;
        let made = self.make_with_mode(path, mode);
        let forgotten = self.forget_reminder(reminder);
        if made.is_ok() && forgotten.is_err() {
            let _ = doing::remove_dir(&self.rt, &self.touched, path);
        }
        made?;
        forgotten
    }

    // Makes the reminder of a directory. Where that failed it may stand.
    fn remind(&mut self, reminder: &Reminder, path: &Path) -> Result<(), LookEnd>
        ensures kept { KeepsNotes self.old.touched self.new.touched }
        ensures broken { self.new.broken ≡ self.old.broken }
        ensures reminded { self.new.is_reminded ≡ true }
    {
        self.is_reminded = true;
        self.touched.note_parent(self.rt.alloc(), &reminder.place);
        let target = path.text()?;
        doing::make_link(&self.rt, &self.touched, &reminder.place, target.as_str())
    }

    // Removes the reminder. A failure is tried once more.
    fn forget_reminder(&mut self, reminder: &Reminder) -> Result<(), LookEnd>
        requires { self.old.is_reminded ≡ true }
        ensures kept { KeepsNotes self.old.touched self.new.touched }
        ensures broken { self.new.broken ≡ self.old.broken }
        ensures forgotten { OnOk result (self.new.is_reminded ≡ false) }
    {
        self.touched.note_parent(self.rt.alloc(), &reminder.place);
        if doing::remove(&self.rt, &self.touched, &reminder.place).is_err() {
            doing::remove(&self.rt, &self.touched, &reminder.place)?;
        }
        self.is_reminded = false;
        Ok(())
    }

    /// Does what a reminder tells that was left, and removes it.
    pub fn do_reminded(&mut self, reminder: Option<&Reminder>) -> Result<(), LookEnd>
        ensures kept { KeepsNotes self.old.touched self.new.touched }
        ensures broken { self.new.broken ≡ self.old.broken }
        ensures forgotten { OnOk result (self.new.is_reminded ≡ false) }
    {
        let Some(reminder) = reminder else {
            self.is_reminded = false;
            return Ok(());
        };
        if !self.is_reminded {
            return Ok(());
        }
        match self.look(reminder.place.names())? {
            Some(found) if found.data.is_symlink() => {
                self.set_reminded(&found, reminder.mode)?;
                self.forget_reminder(reminder)
            }
            _ => {
                self.is_reminded = false;
                Ok(())
            }
        }
    }

    // Gives the directory that a reminder tells of its mode. One with entries isn't new, and is left.
    fn set_reminded(&mut self, reminder: &Found, mode: u16) -> Result<(), LookEnd>
        ensures kept { KeepsNotes self.old.touched self.new.touched }
        ensures broken { self.new.broken ≡ self.old.broken }
        ensures reminded { self.new.is_reminded ≡ self.old.is_reminded }
    {
        let alloc = self.rt.alloc();
        let Some(path) = reminded_path(&self.rt, alloc, reminder)? else {
            return Ok(());
        };
        match self.look(path.names())? {
            Some(found) if found.data.is_dir() && mode_of(&found.data) != mode => {
                if let Ok(false) = self.is_empty(&path) {
                    return Ok(());
                }
                self.touched.note(&path);
                doing::set_mode(&self.rt, &self.touched, &path, &found, mode)
            }
            _ => Ok(()),
        }
    }
}

// The path to which a reminder leads, or None where that is no path of the tree.
fn reminded_path<R: Files + AllocGlobal>(
    rt: &R,
    alloc: Global,
    reminder: &Found,
) -> Result<Option<Path>, LookEnd> {
    let Ok(target) = fs::read_link(rt, reminder.text.as_str()) else {
        return Err(LookEnd::Failed);
    };
    match resolve(alloc, &Path::root(alloc), target.into_string().as_str()) {
        Ok(path) => Ok(Some(path)),
        Err(NameError::Memory) => Err(LookEnd::Memory),
        Err(_) => Ok(None),
    }
}
