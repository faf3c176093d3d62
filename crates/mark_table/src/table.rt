// The marks, and the copies that undo goes back to.
ghost use Rattle.std.specs.Prelude.{◌≡◌, IfOk, IfSome, OnOk, OnErr, count_by, ◌==◌, ◌&&◌};
ghost use Rattle.std.specs.FinMap as map;
ghost use Rattle.dired_text.specs.Answers.{IsOrMemory};
ghost use Rattle.mark_table.specs.PathMarks.{IsMark, cleared, is_mark as is_mark_byte, replaced, toggled};
ghost use Rattle.mark_table.specs.Moves.{moved_marks};
ghost use Rattle.mark_table.specs.Tables.{can_undo, forgotten, no_marks, ok_if, saved, undone, with_marks};

use crate::mark_map::MarkMap;
use crate::moving::moved;
use dired_text::{Memory, Path};
use std::alloc::Global;
use std::marker::Model;

// The mark that `m` gives.
const STAR: u8 = b'*';

/// Why a call of [`Marks`] was refused. The marks and the kept copies are then as they were.
#[derive(Clone, Copy, Debug, PartialEq, Eq, Drop)]
pub enum MarkFault {
    /// The byte is no mark.
    BadMark,
    /// No copy is kept.
    NothingToUndo,
    /// An allocation was refused.
    Memory,
}

/// Whether a byte is a mark: one of printed ASCII, from 33 to 126.
pub fn is_mark(byte: u8) -> bool
    ensures { result ≡ is_mark_byte byte }
{
    33 <= byte && byte <= 126
}

/// The marks of files and directories, at most one at each path, and the copies of all marks that were kept to go back
/// to. A mark is a byte from 33 to 126, as `*`, and `D` for a file to be removed (GNU Emacs Manual, "Dired Marks vs.
/// Flags").
#[derive(Drop)]
pub struct Marks {
    marks: MarkMap,
    kept: Vec<MarkMap>,
}

impl Model for Marks {
    ghost use Rattle.std.specs.Prelude.{reverse};
    ghost use Rattle.mark_table.specs.Tables.{MarkTable, mark_table_code};

    ghost Value = { MarkTable };

    ghost coded = { mark_table_code };

    ghost view = { λ m. record { marks = m.marks; kept = reverse m.kept.items } };
}

impl Marks {
    /// No marks, and no copy is kept.
    pub fn new(alloc: Global) -> Result<Self, Memory>
        ensures { IfOk result (λ t. t ≡ no_marks) }
    {
        Ok(Marks {
            marks: MarkMap::new(alloc),
            kept: Vec::new(alloc),
        })
    }

    /// The mark of a path.
    pub fn get(&self, path: &Path) -> Option<u8>
        ensures value { result ≡ map.get self.now.marks path.now }
        ensures mark { IfSome result IsMark }
    {
        self.marks.get(path)
    }

    /// Gives a path this mark in the place of any that it has.
    ///
    /// # Errors
    /// `BadMark` where the byte is no mark; want of memory.
    pub fn set(&mut self, path: Path, mark: u8) -> Result<(), MarkFault>
        ensures answer { IsOrMemory MarkFault.Memory
            (ok_if (is_mark_byte mark) MarkFault.BadMark) result }
        ensures ok { OnOk result (self.new ≡
            with_marks self.old (map.insert self.old.marks path mark)) }
        ensures err { OnErr result (self.new ≡ self.old) }
    {
        if !is_mark(mark) {
            return Err(MarkFault::BadMark);
        }
        match self.marks.insert(path, mark) {
            Ok(()) => Ok(()),
            Err(_) => Err(MarkFault::Memory),
        }
    }

    /// Takes the mark of a path away.
    pub fn clear(&mut self, path: &Path)
        ensures { self.new ≡ with_marks self.old (map.remove self.old.marks path.now) }
    {
        self.marks.remove(path);
    }

    /// Takes every mark away. The kept copies stay.
    pub fn clear_all(&mut self)
        ensures { self.new ≡ with_marks self.old map.empty }
    {
        self.marks.clear();
    }

    /// Takes this mark away wherever it stands.
    ///
    /// # Errors
    /// `BadMark` where the byte is no mark.
    pub fn clear_mark(&mut self, mark: u8) -> Result<(), MarkFault>
        ensures answer { result ≡ ok_if (is_mark_byte mark) MarkFault.BadMark }
        ensures ok { OnOk result (self.new ≡ with_marks self.old (cleared mark self.old.marks)) }
        ensures err { OnErr result (self.new ≡ self.old) }
    {
        if !is_mark(mark) {
            return Err(MarkFault::BadMark);
        }
        self.marks.clear_mark(mark);
        Ok(())
    }

    /// Among these paths, gives `*` to those without a mark and takes it from those that have it. A path that stands
    /// twice among them is changed once. Other marks stay.
    ///
    /// # Errors
    /// Want of memory.
    pub fn toggle(&mut self, shown: &[Path]) -> Result<(), Memory>
        ensures ok { OnOk result (self.new ≡
            with_marks self.old (toggled shown.now self.old.marks)) }
        ensures err { OnErr result (self.new ≡ self.old) }
    {
        // Both are read before any mark changes, so a path that stands twice is changed once.
        let bare = self.marks.those(shown, None)?;
        let starred = self.marks.those(shown, Some(STAR))?;
        if let Err(refused) = self.marks.insert_each(&bare, STAR) {
            self.marks.remove_each(&bare);
            return Err(refused);
        }
        self.marks.remove_each(&starred);
        Ok(())
    }

    /// Puts the mark `new` in the place of the mark `old` wherever that stands.
    ///
    /// # Errors
    /// `BadMark` where either byte is no mark.
    pub fn replace(&mut self, old: u8, new: u8) -> Result<(), MarkFault>
        ensures answer { result ≡ ok_if (is_mark_byte old && is_mark_byte new) MarkFault.BadMark }
        ensures ok { OnOk result (self.new ≡
            with_marks self.old (replaced old new self.old.marks)) }
        ensures err { OnErr result (self.new ≡ self.old) }
    {
        if !is_mark(old) || !is_mark(new) {
            return Err(MarkFault::BadMark);
        }
        self.marks.replace(old, new);
        Ok(())
    }

    /// How many paths have this mark.
    pub fn count(&self, mark: u8) -> u64
        ensures { result ≡ count_by (λ b. b == mark) (map.values self.now.marks) }
    {
        self.marks.count(mark)
    }

    /// The marked paths, in path order.
    ///
    /// # Errors
    /// Want of memory.
    pub fn paths(&self) -> Result<Vec<Path>, Memory>
        ensures { IfOk result (λ v. v.items ≡ map.keys self.now.marks) }
    {
        self.marks.paths()
    }

    /// Carries marks along with files that went to other paths, all at once. Each pair is where a file stood and where
    /// it stands now. Each second path has the mark that its first path had, or none where that had none, and a first
    /// path that is no second path has none. Of two pairs with one second path the later counts.
    ///
    /// # Errors
    /// Want of memory.
    pub fn moved(&mut self, pairs: &[(Path, Path)]) -> Result<(), Memory>
        ensures ok { OnOk result (self.new ≡
            with_marks self.old (moved_marks pairs.now self.old.marks)) }
        ensures err { OnErr result (self.new ≡ self.old) }
    {
        self.marks = moved(&self.marks, pairs)?;
        Ok(())
    }

    /// Keeps a copy of the marks.
    ///
    /// # Errors
    /// Want of memory.
    pub fn save(&mut self) -> Result<(), Memory>
        ensures ok { OnOk result (self.new ≡ saved self.old) }
        ensures err { OnErr result (self.new ≡ self.old) }
    {
        let copy = self.marks.copy()?;
        self.kept.push(copy)?;
        Ok(())
    }

    /// Goes back to the last copy that was kept, which is then kept no longer.
    ///
    /// # Errors
    /// `NothingToUndo` where no copy is kept.
    pub fn undo(&mut self) -> Result<(), MarkFault>
        ensures answer { result ≡ ok_if (can_undo self.old) MarkFault.NothingToUndo }
        ensures after { self.new ≡ undone self.old }
    {
        match self.kept.pop() {
            None => Err(MarkFault::NothingToUndo),
            Some(marks) => {
                self.marks = marks;
                Ok(())
            }
        }
    }

    /// Drops the kept copies. The marks stay, and no memory is taken.
    pub fn forget(&mut self)
        ensures { self.new ≡ forgotten self.old }
    {
        self.kept.clear();
    }
}
