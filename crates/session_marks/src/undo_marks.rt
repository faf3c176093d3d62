// The marks, and what leads back to those from before.
ghost use Rattle.std.specs.Prelude.{◌≡◌, ◌<◌, ◌++◌, ◌∷◌, [], IfOk, IfSome, OnOk, OnErr, vec_len, vec_capacity};
ghost use Rattle.std.specs.FinMap.{empty, get as mark_at};
ghost use Rattle.mark_table.specs.PathMarks.{IsMark, cleared, replaced, toggled, with_each};
ghost use Rattle.mark_table.specs.Tables.{saved};
ghost use Rattle.session_marks.specs.declared.kept.Kept.TheVariants.{Copy};
ghost use Rattle.session_marks.specs.Histories.{IsOldOrLeadsBack, can_undo, forgotten, gains, no_history, taken_back};

use crate::changes::{go_back, others, put_each};
use crate::kept::Kept;
use dired_text::{Memory, Path};
use mark_table::Marks;
use std::alloc::Global;
use std::marker::Model;

// Keeps what leads back over a change, for which there is room.
fn keep(kept: &mut Vec<Kept>, change: Kept)
    requires { vec_len kept.old < vec_capacity kept.old }
    ensures { kept.new.items ≡ kept.old.items ++ change ∷ [] }
{
    let _ = kept.push(change);
}

// Keeps a copy of all marks, for a change that follows.
fn keep_all(marks: &mut Marks, kept: &mut Vec<Kept>) -> Result<(), Memory>
    ensures marks { OnOk result (marks.new ≡ saved marks.old) }
    ensures kept { OnOk result (kept.new.items ≡ kept.old.items ++ Copy ∷ []) }
    ensures marks_err { OnErr result (marks.new ≡ marks.old) }
    ensures kept_err { OnErr result (kept.new.items ≡ kept.old.items) }
{
    // The room is made first: a copy of which nothing is kept would be taken for another change's.
    kept.reserve(1)?;
    marks.save()?;
    keep(kept, Kept::Copy);
    Ok(())
}

/// Marks, and the undo list of their changes. Each call that changes marks is one change, which [`UndoMarks::undo`] takes
/// back, also where no mark came to be another one.
#[derive(Drop)]
pub struct UndoMarks {
    alloc: Global,
    marks: Marks,
    kept: Vec<Kept>,
}

impl Model for UndoMarks {
    ghost use Rattle.session_marks.specs.Histories.{MarkHistory, mark_history_code};
    ghost use Rattle.session_marks.specs.Keeping.{history_of};

    ghost Value = { MarkHistory };

    ghost coded = { mark_history_code };

    ghost view = { λ u. history_of u.marks u.kept.items };
}

impl UndoMarks {
    /// No marks, and nothing to undo.
    ///
    /// # Errors
    /// Want of memory.
    pub fn new(alloc: Global) -> Result<Self, Memory>
        ensures { IfOk result (λ u. u ≡ no_history) }
    {
        Ok(UndoMarks {
            alloc,
            marks: Marks::new(alloc)?,
            kept: Vec::new(alloc),
        })
    }

    /// The marks as they stand.
    pub fn marks(&self) -> &Marks
        ensures { result.now.marks ≡ self.now.marks }
    {
        &self.marks
    }

    /// The mark of a path.
    pub fn get(&self, path: &Path) -> Option<u8>
        ensures value { result ≡ mark_at self.now.marks path.now }
        ensures mark { IfSome result IsMark }
    {
        self.marks.get(path)
    }

    /// Gives each of these paths this mark, or none, in the place of any that it has. What paths have that have another
    /// mark is kept, and no copy of all marks.
    ///
    /// # Errors
    /// Want of memory. Where some of the paths have the mark then, `undo` leads back.
    pub fn put(&mut self, paths: &[Path], mark: Option<u8>) -> Result<(), Memory>
        requires { IfSome mark IsMark }
        ensures ok { OnOk result (self.new ≡
            gains (with_each (λ _. mark) paths.now self.old.marks) self.old) }
        ensures err { OnErr result (IsOldOrLeadsBack self.old self.new) }
    {
        let pairs = others(self.alloc, &self.marks, paths, mark)?;
        self.kept.reserve(1)?;
        let answer = put_each(&mut self.marks, &pairs, mark);
        keep(&mut self.kept, Kept::Differences(pairs));
        answer
    }

    /// Among these paths, gives `*` to those without a mark and takes it from those that have it. A path that stands
    /// twice among them is changed once. Other marks stay.
    ///
    /// # Errors
    /// Want of memory. Where the undo list has gained then, `undo` leads back.
    pub fn toggle(&mut self, shown: &[Path]) -> Result<(), Memory>
        ensures ok { OnOk result (self.new ≡
            gains (toggled shown.now self.old.marks) self.old) }
        ensures err { OnErr result (IsOldOrLeadsBack self.old self.new) }
    {
        keep_all(&mut self.marks, &mut self.kept)?;
        self.marks.toggle(shown)
    }

    /// Takes every mark away.
    ///
    /// # Errors
    /// Want of memory.
    pub fn clear_all(&mut self) -> Result<(), Memory>
        ensures ok { OnOk result (self.new ≡ gains empty self.old) }
        ensures err { OnErr result (self.new ≡ self.old) }
    {
        keep_all(&mut self.marks, &mut self.kept)?;
        self.marks.clear_all();
        Ok(())
    }

    /// Takes this mark away wherever it stands.
    ///
    /// # Errors
    /// Want of memory.
    pub fn clear_mark(&mut self, mark: u8) -> Result<(), Memory>
        requires { IsMark mark }
        ensures ok { OnOk result (self.new ≡ gains (cleared mark self.old.marks) self.old) }
        ensures err { OnErr result (self.new ≡ self.old) }
    {
        keep_all(&mut self.marks, &mut self.kept)?;
        let _ = self.marks.clear_mark(mark);
        Ok(())
    }

    /// Puts the mark `new` in the place of the mark `old` wherever that stands.
    ///
    /// # Errors
    /// Want of memory.
    pub fn replace(&mut self, old: u8, new: u8) -> Result<(), Memory>
        requires { IsMark old × IsMark new }
        ensures ok { OnOk result (self.new ≡ gains (replaced old new self.old.marks) self.old) }
        ensures err { OnErr result (self.new ≡ self.old) }
    {
        keep_all(&mut self.marks, &mut self.kept)?;
        let _ = self.marks.replace(old, new);
        Ok(())
    }

    /// Takes the last change back that is in the undo list, or answers false where there is none.
    ///
    /// # Errors
    /// Want of memory. Another call leads to the same marks then.
    pub fn undo(&mut self) -> Result<bool, Memory>
        ensures told { IfOk result (λ undone. undone ≡ can_undo self.old) }
        ensures ok { OnOk result (self.new ≡ taken_back self.old) }
        ensures err { OnErr result (taken_back self.new ≡ taken_back self.old) }
    {
        match self.kept.pop() {
            None => Ok(false),
            Some(last) => match go_back(&mut self.marks, &last) {
                Ok(()) => Ok(true),
                Err(refused) => {
                    keep(&mut self.kept, last);
                    Err(refused)
                }
            },
        }
    }

    /// Empties the undo list. The marks stay.
    pub fn forget(&mut self)
        ensures { self.new ≡ forgotten self.old }
    {
        self.kept.clear();
        self.marks.forget();
    }
}
