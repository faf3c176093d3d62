// The tree below the working directory.
ghost use Rattle.std.specs.Prelude.{◌≡◌, IfOk, None};
ghost use Rattle.dired_text.specs.Counts.{raised};
ghost use Rattle.tree_core.specs.FileTree.{root_tree};
ghost use Rattle.tree_core.specs.History.{Began};

use crate::reminding::Reminder;
use crate::work::Work;
use dired_text::{Bytes, Failed, Name, Path, resolve};
use std::alloc::Global;
use std::process::Processes;
use std::rt::Files;
use tree_core::{CallName, Faults, Kind, LookEnd, Meta, ReadEnd, Tree};

/// The tree below the working directory. No call follows a link, in the middle of a path either. A call fails where its condition
/// isn't met, where the host refuses (also for want of memory), and where the host gives names, targets or modes that no tree has.
/// The first `sync` makes durable what anybody wrote, each later one what was touched since the last. Where one has failed, all
/// later ones do.
#[derive(Drop)]
pub struct HostTree<R: Files + Processes + AllocGlobal + Drop> {
    work: Work<R>,
    // that of directories whose mode is still to be set
    reminder: Option<Reminder>,
    faults: Faults,
    // how many changing calls were made
    changes: u64,
}

impl<R: Files + Processes + AllocGlobal + Drop> HostTree<R> {
    /// Takes the working directory as root. It starts no program and syncs nothing.
    ///
    /// # Errors
    /// `Failed` where the working directory can't be looked at or opened for reading.
    pub fn open(rt: R) -> Result<Self, Failed>
        ensures { IfOk result (λ tree. tree.faults ≡
            record { count = 0; last = None; last_before = None }) }
    {
        match Work::open(rt) {
            Ok(work) => Ok(HostTree {
                work,
                reminder: None,
                faults: Faults::new(),
                changes: 0,
            }),
            Err(_) => Err(Failed),
        }
    }

    /// Has a directory of this mode made so that a kill doesn't leave it with another one, where the host would set its mode by a second
    /// call: by the mask of the process, or in a directory with the set-group bit. A link at this place, which is a path from the root,
    /// then leads to it until it has its mode, if the directory of that place stands. A link that stands there from a run that was
    /// killed is heeded and removed by the first `sync`, and by the first call that makes such a directory.
    ///
    /// # Errors
    /// `Failed` where the place is none below the root, and for want of memory.
    pub fn leave_reminders(&mut self, place: &str, mode: u16) -> Result<(), Failed>
        ensures faults { self.new.faults ≡ self.old.faults }
        ensures changes { self.new.changes ≡ self.old.changes }
    {
        let alloc = self.work.rt.alloc();
        match resolve(alloc, &Path::root(alloc), place) {
            Ok(place) => {
                self.reminder = Some(Reminder { place, mode });
                Ok(())
            }
            Err(_) => Err(Failed),
        }
    }

    // One changing call more is made.
    fn note_change(&mut self)
        ensures { self.new ≡ record self.old { changes = raised self.old.changes } }
    {
        self.changes = self.changes.saturating_add(1);
    }
}

impl<R: Files + Processes + AllocGlobal + Drop> Tree for HostTree<R> {
    ghost use Rattle.tree_host.specs.Untold.{no_fields};

    ghost Tells = { ⊥ };

    ghost history = { λ _. Began root_tree 0 };

    ghost before_failed = { λ _. root_tree };

    ghost fields = { λ _ _. no_fields };

    ghost faults = { λ t. t.faults };

    ghost changes = { λ t. t.changes };

    ghost MayFail = { λ _ _ _. Unit {0} };

    ghost is_sound = { λ t no_way. absurd no_way };

    ghost fields_show = { λ t no_way. absurd no_way };

    fn kind(&mut self, path: &Path) -> Result<Option<Kind>, Failed> {
        match self.work.kind(path) {
            Ok(answer) => Ok(answer),
            Err(_) => {
                self.faults.note(CallName::Kind);
                Err(Failed)
            }
        }
    }

    fn mode(&mut self, path: &Path) -> Result<u16, Failed> {
        match self.work.mode(path) {
            Ok(answer) => Ok(answer),
            Err(_) => {
                self.faults.note(CallName::Mode);
                Err(Failed)
            }
        }
    }

    fn is_empty(&mut self, path: &Path) -> Result<bool, Failed> {
        match self.work.is_empty(path) {
            Ok(answer) => Ok(answer),
            Err(_) => {
                self.faults.note(CallName::IsEmpty);
                Err(Failed)
            }
        }
    }

    fn meta(&mut self, alloc: Global, path: &Path) -> Result<Meta, LookEnd> {
        match self.work.meta(alloc, path) {
            Ok(answer) => Ok(answer),
            Err(LookEnd::Memory) => Err(LookEnd::Memory),
            Err(LookEnd::Failed) => {
                self.faults.note(CallName::Meta);
                Err(LookEnd::Failed)
            }
        }
    }

    fn names(&mut self, alloc: Global, path: &Path) -> Result<Vec<Name>, LookEnd> {
        match self.work.names(alloc, path) {
            Ok(answer) => Ok(answer),
            Err(LookEnd::Memory) => Err(LookEnd::Memory),
            Err(LookEnd::Failed) => {
                self.faults.note(CallName::Names);
                Err(LookEnd::Failed)
            }
        }
    }

    fn read(&mut self, alloc: Global, path: &Path, limit: u64) -> Result<Bytes, ReadEnd> {
        match self.work.read(alloc, path, limit) {
            Ok(Some(bytes)) => Ok(Bytes::from_vec(bytes)),
            Ok(None) => Err(ReadEnd::TooLarge),
            Err(LookEnd::Memory) => Err(ReadEnd::Memory),
            Err(LookEnd::Failed) => {
                self.faults.note(CallName::Read);
                Err(ReadEnd::Failed)
            }
        }
    }

    fn make_dir(&mut self, path: &Path, mode: u16) -> Result<(), Failed> {
        self.note_change();
        match self.work.make_dir(self.reminder.as_ref(), path, mode) {
            Ok(()) => Ok(()),
            Err(_) => {
                self.faults.note(CallName::MakeDir);
                Err(Failed)
            }
        }
    }

    fn make_link(&mut self, path: &Path, target: &str) -> Result<(), Failed> {
        self.note_change();
        match self.work.make_link(path, target) {
            Ok(()) => Ok(()),
            Err(_) => {
                self.faults.note(CallName::MakeLink);
                Err(Failed)
            }
        }
    }

    fn make_hard(&mut self, path: &Path, old: &Path) -> Result<(), Failed> {
        self.note_change();
        match self.work.make_hard(path, old) {
            Ok(()) => Ok(()),
            Err(_) => {
                self.faults.note(CallName::MakeHard);
                Err(Failed)
            }
        }
    }

    fn write_file(&mut self, path: &Path, bytes: &[u8], mode: u16) -> Result<(), Failed> {
        self.note_change();
        match self.work.write_file(path, bytes, mode) {
            Ok(()) => Ok(()),
            Err(_) => {
                self.faults.note(CallName::WriteFile);
                Err(Failed)
            }
        }
    }

    fn rename(&mut self, from: &Path, to: &Path) -> Result<(), Failed> {
        self.note_change();
        match self.work.rename(from, to) {
            Ok(()) => Ok(()),
            Err(_) => {
                self.faults.note(CallName::Rename);
                Err(Failed)
            }
        }
    }

    fn set_mode(&mut self, path: &Path, mode: u16) -> Result<(), Failed> {
        self.note_change();
        match self.work.set_mode(path, mode) {
            Ok(()) => Ok(()),
            Err(_) => {
                self.faults.note(CallName::SetMode);
                Err(Failed)
            }
        }
    }

    fn remove(&mut self, path: &Path) -> Result<(), Failed> {
        self.note_change();
        match self.work.remove(path) {
            Ok(()) => Ok(()),
            Err(_) => {
                self.faults.note(CallName::Remove);
                Err(Failed)
            }
        }
    }

    fn remove_dir(&mut self, path: &Path) -> Result<(), Failed> {
        self.note_change();
        match self.work.remove_dir(path) {
            Ok(()) => Ok(()),
            Err(_) => {
                self.faults.note(CallName::RemoveDir);
                Err(Failed)
            }
        }
    }

    fn sync(&mut self) -> Result<(), Failed> {
        self.note_change();
        match self.work.sync(self.reminder.as_ref()) {
            Ok(()) => Ok(()),
            Err(_) => {
                self.faults.note(CallName::Sync);
                Err(Failed)
            }
        }
    }
}
