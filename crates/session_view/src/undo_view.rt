// A buffer and marks under one undo list.
ghost use Rattle.std.specs.Prelude.{◌≡◌, ◌<◌, ◌++◌, ◌∷◌, [], ◌&&◌, not, IfErr, IfOk, IfSome, OnOk, vec_len, vec_capacity};
ghost use Rattle.std.specs.FinMap.{empty};
ghost use Rattle.mark_table.specs.PathMarks.{IsMark, cleared, replaced, toggled, with_each};
ghost use Rattle.tree_core.specs.History.{current_tree};
ghost use Rattle.tree_core.specs.Looks.{OnlyLooked, failed_in, faults_with};
ghost use Rattle.section_buffer.specs.Making.{IsFaultOrMemory, failed_call};
ghost use Rattle.section_buffer.specs.Buffers.{all_lines};
ghost use Rattle.session_sections.specs.History.{is_root};
ghost use Rattle.session_sections.specs.Sections.{is_section, turned, without_lines, without_section};
ghost use Rattle.session_view.specs.Views.{Changes, IsNew, can_undo, first_view, omitting_turned, taken_back, viewing, with_marks, with_sections};

use crate::part::Part;
use dired_text::{Memory, Path};
use listing_text::{Line, Switches};
use mark_table::Marks;
use section_buffer::{Buffer, BufferEnd};
use session_marks::UndoMarks;
use session_sections::UndoBuffer;
use std::alloc::Global;
use std::marker::Model;
use tree_core::Tree;

// Makes room to keep one more command.
fn make_room(kept: &mut Vec<Part>) -> Result<(), Memory>
    ensures items { kept.new.items ≡ kept.old.items }
    ensures room { OnOk result (vec_len kept.new < vec_capacity kept.new) }
{
    kept.reserve(1)?;
    Ok(())
}

// Keeps which part a command changed, for which there is room.
fn keep(kept: &mut Vec<Part>, part: Part)
    requires { vec_len kept.old < vec_capacity kept.old }
    ensures { kept.new.items ≡ kept.old.items ++ part ∷ [] }
{
    let _ = kept.push(part);
}

/// The sections of a buffer, the marks and whether lines are omitted, with one undo list. Each call that answers Ok is one
/// command, which [`UndoView::undo`] takes back, also where it changed nothing. Behind a want of memory nothing is said
/// of what is seen.
#[derive(Drop)]
pub struct UndoView {
    buffer: UndoBuffer,
    marks: UndoMarks,
    omitting: bool,
    kept: Vec<Part>,
}

impl Model for UndoView {
    ghost use Rattle.std.specs.Prelude.{reverse};
    ghost use Rattle.listing_text.specs.contracts.switches.Switches as switches;
    ghost use Rattle.section_buffer.specs.contracts.section.Section as section;
    ghost use Rattle.session_view.specs.Views.{ViewHistory, view_history_code};

    ghost Value = { ViewHistory };

    ghost coded = { view_history_code switches.the_row.coded section.the_row.coded };

    ghost use Rattle.session_view.specs.Parts.{seen_as};

    ghost view = { λ u. seen_as u.buffer u.marks u.omitting (reverse u.kept.items) };
}

impl UndoView {
    /// The root's section, with the lines that a tree gives of the root, no marks, no lines omitted, and nothing to undo.
    ///
    /// # Errors
    /// `TreeFault` names the call that failed; want of memory.
    pub fn new<T: Tree>(alloc: Global, tree: &mut T, switches: Switches) -> Result<Self, BufferEnd>
        ensures listed { T.Tells → IfOk result
            (λ u. IsNew switches (current_tree (T.history tree.old)) (T.fields tree.old) u) }
        ensures end { IfErr result IsFaultOrMemory }
        ensures looked { T.Tells → OnlyLooked (failed_in failed_call result)
            (T.history tree.old) (T.history tree.new) (T.fields tree.old) (T.fields tree.new)
            (T.before_failed tree.old) (T.before_failed tree.new) }
        ensures faults { T.faults tree.new ≡
            faults_with (failed_in failed_call result) (T.faults tree.old) }
        ensures unchanged { T.changes tree.new ≡ T.changes tree.old }
    {
        let buffer = match UndoBuffer::new(alloc, tree, switches) {
            Ok(buffer) => buffer,
            Err(end) => return Err(end),
        };
        let Ok(marks) = UndoMarks::new(alloc) else {
            return Err(BufferEnd::Memory);
        };
        Ok(UndoView {
            buffer,
            marks,
            omitting: false,
            kept: Vec::new(alloc),
        })
    }

    /// These lines in the root's section, no marks, no lines omitted, and nothing to undo. The switches are those of `-Al`.
    ///
    /// # Errors
    /// Want of memory.
    pub fn of_lines(alloc: Global, lines: Vec<Line>) -> Result<Self, Memory>
        ensures { IfOk result (λ u. u ≡ first_view all_lines lines.items) }
    {
        Ok(UndoView {
            buffer: UndoBuffer::of_lines(alloc, lines)?,
            marks: UndoMarks::new(alloc)?,
            omitting: false,
            kept: Vec::new(alloc),
        })
    }

    /// The marks, to be read.
    pub fn marks(&self) -> &Marks
        ensures { result.now.marks ≡ self.now.view.marks }
    {
        self.marks.marks()
    }

    /// The buffer, to be read.
    pub fn buffer(&self) -> &Buffer
        ensures sections { result.now.sections ≡ self.now.view.sections }
        ensures switches { result.now.switches ≡ self.now.switches }
    {
        self.buffer.buffer()
    }

    /// Whether lines are omitted.
    pub fn omitting(&self) -> bool
        ensures { result ≡ self.now.view.omitting }
    {
        self.omitting
    }

    /// Gives each of these paths this mark, or none, in the place of any that it has.
    ///
    /// # Errors
    /// Want of memory.
    pub fn put(&mut self, paths: &[Path], mark: Option<u8>) -> Result<(), Memory>
        requires { IfSome mark IsMark }
        ensures { OnOk result (self.new ≡ viewing (with_marks
            (with_each (λ _. mark) paths.now self.old.view.marks) self.old.view) self.old) }
    {
        make_room(&mut self.kept)?;
        self.marks.put(paths, mark)?;
        keep(&mut self.kept, Part::Marks);
        Ok(())
    }

    /// Among these paths, gives `*` to those without a mark and takes it from those that have it. A path that stands
    /// twice among them is changed once. Other marks stay.
    ///
    /// # Errors
    /// Want of memory.
    pub fn toggle(&mut self, shown: &[Path]) -> Result<(), Memory>
        ensures { OnOk result (self.new ≡ viewing (with_marks
            (toggled shown.now self.old.view.marks) self.old.view) self.old) }
    {
        make_room(&mut self.kept)?;
        self.marks.toggle(shown)?;
        keep(&mut self.kept, Part::Marks);
        Ok(())
    }

    /// Takes every mark away.
    ///
    /// # Errors
    /// Want of memory.
    pub fn clear_all(&mut self) -> Result<(), Memory>
        ensures { OnOk result (self.new ≡ viewing (with_marks empty self.old.view) self.old) }
    {
        make_room(&mut self.kept)?;
        self.marks.clear_all()?;
        keep(&mut self.kept, Part::Marks);
        Ok(())
    }

    /// Takes this mark away wherever it stands.
    ///
    /// # Errors
    /// Want of memory.
    pub fn clear_mark(&mut self, mark: u8) -> Result<(), Memory>
        requires { IsMark mark }
        ensures { OnOk result (self.new ≡ viewing (with_marks
            (cleared mark self.old.view.marks) self.old.view) self.old) }
    {
        make_room(&mut self.kept)?;
        self.marks.clear_mark(mark)?;
        keep(&mut self.kept, Part::Marks);
        Ok(())
    }

    /// Puts the mark `new` in the place of the mark `old` wherever that stands.
    ///
    /// # Errors
    /// Want of memory.
    pub fn replace(&mut self, old: u8, new: u8) -> Result<(), Memory>
        requires { IsMark old × IsMark new }
        ensures { OnOk result (self.new ≡ viewing (with_marks
            (replaced old new self.old.view.marks) self.old.view) self.old) }
    {
        make_room(&mut self.kept)?;
        self.marks.replace(old, new)?;
        keep(&mut self.kept, Part::Marks);
        Ok(())
    }

    /// Takes the section of a directory out, its head and its lines.
    ///
    /// # Errors
    /// `NotThere` where there is no such section, and for the root's; want of memory.
    pub fn take_out(&mut self, dir: &Path) -> Result<(), BufferEnd>
        ensures { Changes (not (is_root dir.now) && is_section dir.now self.old.view.sections)
            (with_sections (without_section dir.now self.old.view.sections) self.old.view) result
            self.old self.new }
    {
        make_room(&mut self.kept)?;
        self.buffer.take_out(dir)?;
        keep(&mut self.kept, Part::Sections);
        Ok(())
    }

    /// Hides the lines of a directory's section where they are shown, and shows them where they are hidden.
    ///
    /// # Errors
    /// `NotThere` where there is no such section; want of memory.
    pub fn turn(&mut self, dir: &Path) -> Result<(), BufferEnd>
        ensures { Changes (is_section dir.now self.old.view.sections)
            (with_sections (turned dir.now self.old.view.sections) self.old.view) result self.old
            self.new }
    {
        make_room(&mut self.kept)?;
        self.buffer.turn(dir)?;
        keep(&mut self.kept, Part::Sections);
        Ok(())
    }

    /// Takes the lines of these paths out of the sections that are shown.
    ///
    /// # Errors
    /// Want of memory.
    pub fn kill(&mut self, paths: &[Path]) -> Result<(), Memory>
        ensures { OnOk result (self.new ≡ viewing (with_sections
            (without_lines paths.now self.old.view.sections) self.old.view) self.old) }
    {
        make_room(&mut self.kept)?;
        self.buffer.kill(paths)?;
        keep(&mut self.kept, Part::Sections);
        Ok(())
    }

    /// Turns omitting on or off.
    ///
    /// # Errors
    /// Want of memory.
    pub fn omit(&mut self) -> Result<(), Memory>
        ensures { OnOk result (self.new ≡ viewing (omitting_turned self.old.view) self.old) }
    {
        self.kept.push(Part::Omitting)?;
        self.omitting = !self.omitting;
        Ok(())
    }

    /// Takes the last command that may be undone back. Answers whether there was one.
    ///
    /// # Errors
    /// Want of memory.
    pub fn undo(&mut self) -> Result<bool, Memory>
        ensures told { IfOk result (λ is_undone. is_undone ≡ can_undo self.old) }
        ensures after { OnOk result (self.new ≡ taken_back self.old) }
    {
        let Some(part) = self.kept.last().copied() else {
            return Ok(false);
        };
        let is_undone = match part {
            Part::Marks => self.marks.undo()?,
            Part::Sections => self.buffer.undo().is_ok(),
            Part::Omitting => {
                self.omitting = !self.omitting;
                true
            }
        };
        if is_undone {
            let _ = self.kept.pop();
        }
        Ok(is_undone)
    }
}
