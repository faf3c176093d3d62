// A buffer with an undo list.
ghost use Rattle.std.specs.Prelude.{◌≡◌, ◌<◌, ◌≤◌, ◌++◌, ◌∷◌, [], ◌&&◌, not, IfErr, IfOk, OnErr, OnOk, vec_len, vec_capacity};
ghost use Rattle.tree_core.specs.History.{current_tree};
ghost use Rattle.tree_core.specs.Looks.{OnlyLooked, failed_in, faults_with};
ghost use Rattle.section_buffer.specs.Buffers.{all_lines};
ghost use Rattle.section_buffer.specs.Making.{IsFaultOrMemory, failed_call};
ghost use Rattle.session_sections.specs.History.{Changes, IsNew, Undoes, gains, is_root, of_root};
ghost use Rattle.session_sections.specs.Sections.{is_section, turned, without_lines, without_section};

use crate::kept::Kept;
use crate::steps::{flip, kill_paths, take_back};
use dired_text::{Memory, Path};
use listing_text::{Line, Switches};
use section_buffer::{Buffer, BufferEnd, kills_come_back};
use std::alloc::Global;
use std::marker::Model;
use tree_core::Tree;

// Makes room for one more change.
fn make_room(kept: &mut Vec<Kept>) -> Result<(), Memory>
    ensures items { kept.new.items ≡ kept.old.items }
    ensures room { OnOk result (vec_len kept.new < vec_capacity kept.new) }
{
    kept.reserve(1)?;
    Ok(())
}

// Keeps a change, for which there is room.
fn keep(kept: &mut Vec<Kept>, change: Kept)
    requires { vec_len kept.old < vec_capacity kept.old }
    ensures { kept.new.items ≡ kept.old.items ++ change ∷ [] }
{
    let _ = kept.push(change);
}

/// The sections of a buffer, and what they were before each change that may be undone. Of a change only what is needed to
/// take it back is kept, and undoing takes no memory.
#[derive(Drop)]
pub struct UndoBuffer {
    buffer: Buffer,
    kept: Vec<Kept>,
}

impl Model for UndoBuffer {
    ghost use Rattle.std.specs.Prelude.{reverse};
    ghost use Rattle.session_sections.specs.History.{SectionHistory};
    ghost use Rattle.session_sections.specs.Held.{IsHeld, seen_as};

    ghost Value = { SectionHistory };

    ghost view = { λ u. seen_as u.buffer (reverse u.kept.items) };

    ghost invariant = { λ u. IsHeld u.buffer (reverse u.kept.items) };
}

impl UndoBuffer {
    /// The root's section, with the lines that a tree gives of the root, and nothing to undo.
    ///
    /// # Errors
    /// `TreeFault` names the call that failed; want of memory.
    pub fn new<T: Tree>(alloc: Global, tree: &mut T, switches: Switches) -> Result<Self, BufferEnd>
        ensures listed { T.Tells → IfOk result
            (λ u. IsNew switches (current_tree (T.history tree.old)) (T.fields tree.old) u) }
        ensures end { IfErr result IsFaultOrMemory }
        ensures looked { T.Tells → OnlyLooked (failed_in failed_call result)
            (T.history tree.old) (T.history tree.new) (T.fields tree.old) (T.fields tree.new)
            (T.before_failed tree.old) (T.before_failed tree.new) }
        ensures faults { T.faults tree.new ≡
            faults_with (failed_in failed_call result) (T.faults tree.old) }
        ensures unchanged { T.changes tree.new ≡ T.changes tree.old }
    {
        match Buffer::new(alloc, tree, switches) {
            Ok(buffer) => Ok(UndoBuffer {
                buffer,
                kept: Vec::new(alloc),
            }),
            Err(end) => Err(end),
        }
    }

    /// The root's section with these lines, and nothing to undo. The switches are those of `-Al`.
    ///
    /// # Errors
    /// Want of memory.
    pub fn of_lines(alloc: Global, lines: Vec<Line>) -> Result<Self, Memory>
        ensures { IfOk result (λ u. u ≡ of_root all_lines lines.items) }
    {
        Ok(UndoBuffer {
            buffer: Buffer::of_lines(alloc, lines)?,
            kept: Vec::new(alloc),
        })
    }

    /// The buffer itself, to be read and printed.
    pub fn buffer(&self) -> &Buffer
        ensures sections { result.now.sections ≡ self.now.sections }
        ensures switches { result.now.switches ≡ self.now.switches }
    {
        &self.buffer
    }

    /// Takes the section of a directory out.
    ///
    /// # Errors
    /// `NotThere` where there is no such section, and for the root's; want of memory.
    pub fn take_out(&mut self, dir: &Path) -> Result<(), BufferEnd>
        ensures { Changes (not (is_root dir.now) && is_section dir.now self.old.sections)
            (without_section dir.now self.old.sections) result self.old self.new }
    {
        make_room(&mut self.kept)?;
        kills_come_back(&self.buffer);
        self.buffer.kill_section(dir)?;
        keep(&mut self.kept, Kept::Kills(1));
        Ok(())
    }

    /// Hides the lines of a directory's section where they are shown, and shows them where they are hidden.
    ///
    /// # Errors
    /// `NotThere` where there is no such section; want of memory.
    pub fn turn(&mut self, dir: &Path) -> Result<(), BufferEnd>
        ensures { Changes (is_section dir.now self.old.sections)
            (turned dir.now self.old.sections) result self.old self.new }
    {
        make_room(&mut self.kept)?;
        let change = Kept::Turning(dir.copy()?);
        flip(&mut self.buffer, dir)?;
        keep(&mut self.kept, change);
        Ok(())
    }

    /// Takes out each line of these paths that is shown. One undo puts all of them back.
    ///
    /// # Errors
    /// Want of memory, and then nothing changes.
    pub fn kill(&mut self, paths: &[Path]) -> Result<(), Memory>
        ensures ok { OnOk result (self.new ≡
            gains (without_lines paths.now self.old.sections) self.old) }
        ensures err { OnErr result (self.new ≡ self.old) }
    {
        make_room(&mut self.kept)?;
        kills_come_back(&self.buffer);
        let rows = self.buffer.row_count();
        kill_paths(&mut self.buffer, paths);
        let count = rows - self.buffer.row_count();
        keep(&mut self.kept, Kept::Kills(count));
        Ok(())
    }

    /// Undoes the last change that isn't undone.
    ///
    /// # Errors
    /// `NotThere` where nothing is left to be undone.
    pub fn undo(&mut self) -> Result<(), BufferEnd>
        ensures { Undoes self.old.earlier result self.old self.new }
    {
        let Some(change) = self.kept.pop() else {
            return Err(BufferEnd::NotThere);
        };
        take_back(&mut self.buffer, &change);
        Ok(())
    }
}
