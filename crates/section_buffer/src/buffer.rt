// The buffer.
ghost use Rattle.std.specs.Prelude.{◌≡◌, ◌<◌, ◌≤◌, ◌+◌, ◌++◌, ◌∷◌, [], true, false, IfErr, IfOk, OnErr, OnOk, length, reverse, vec_len, vec_capacity};
ghost use Rattle.link_rows.specs.Values.{HasValues};
ghost use Rattle.mark_table.specs.PathMarks.{is_among};
ghost use Rattle.std.specs.FinMap.{get};
ghost use Rattle.subdir_list.specs.Listings.{IsListed};
ghost use Rattle.tree_core.specs.History.{current_tree};
ghost use Rattle.tree_core.specs.Looks.{OnlyLooked, failed_in, faults_with};
ghost use Rattle.section_rows.specs.Orders.{no_rows};
ghost use Rattle.section_buffer.specs.Held.{IsRootFirst, with_made};
ghost use Rattle.section_buffer.specs.Making.{EndsAs, IsFaultOrMemory, IsNew, IsOfRoot, IsPutIn, failed_call, insert_refusal, is_among_sections};
ghost use Rattle.section_buffer.specs.Printed.{PrintsAs, faults_behind, printed};
ghost use Rattle.section_buffer.specs.Relisting.{AreListed, IsRelisted, RootStays, places_after, standing};
ghost use Rattle.section_buffer.specs.Rows.{rows_of, sections_of};
ghost use Rattle.section_buffer.specs.Sections.{hidden_at};
ghost use Rattle.section_buffer.specs.Buffers.{InsertionsComeBack, KillsComeBack, Leads, all_lines, inserted, line_killed, of_root, of_sections, section_killed, turned, uninserted, unkilled};

use crate::finding::{head_row, is_of, line_row, place_behind};
use crate::gathering::copy_sections;
use crate::hiding::section_hidden;
use crate::kept::Kept;
use crate::looking::{kind_at, listed_lines};
use crate::printing::text_of;
use crate::putting::{changes_of, make_rows};
use crate::relisting::{list_places, moved_places};
use crate::taking::{take_section, undo_kill};
use crate::{BufferEnd, PrintEnd, Section};
use dired_text::{Bytes, Memory, Path, Sink};
use link_rows::{RowId, Rows};
use listing_text::{Line, Switches};
use mark_table::Marks;
use section_rows::{BufferRow, UndoRows};
use std::alloc::Global;
use std::marker::Model;
use tree_core::{Kind, Tree};

// Keeps a change, for which there is room.
fn keep(kept: &mut Vec<Kept>, change: Kept)
    requires { vec_len kept.old < vec_capacity kept.old }
    ensures items { kept.new.items ≡ kept.old.items ++ change ∷ [] }
    ensures capacity { vec_capacity kept.old ≤ vec_capacity kept.new }
{
    let _ = kept.push(change);
}

/// A buffer of sections: the lines of the root and of directories below it, each under a head. Rows that were killed
/// can be put back, the last first (GNU Emacs Manual, "Dired Updating", "Subdirectories in Dired").
#[derive(Drop)]
pub struct Buffer {
    rows: UndoRows,
    switches: Switches,
    kept: Vec<Kept>,
}

impl Model for Buffer {
    ghost use Rattle.std.specs.Prelude.{reverse, vec_capacity};
    ghost use Rattle.section_buffer.specs.Buffers.{BufferState};
    ghost use Rattle.section_buffer.specs.Held.{IsBuffer, seen_as};

    ghost Value = { BufferState };

    ghost view = { λ b. seen_as b.switches b.rows (reverse b.kept.items) };

    ghost invariant = { λ b. IsBuffer b.rows (reverse b.kept.items) (vec_capacity b.kept) };
}

impl Buffer {
    /// A buffer of the root's section, with the lines that a tree gives of the root.
    ///
    /// # Errors
    /// `TreeFault` names the call that failed; want of memory.
    pub fn new<T: Tree>(alloc: Global, tree: &mut T, switches: Switches) -> Result<Self, BufferEnd>
        ensures listed { T.Tells → IfOk result
            (λ b. IsNew switches (current_tree (T.history tree.old)) (T.fields tree.old) b) }
        ensures root { IfOk result (λ b. IsOfRoot switches b) }
        ensures end { IfErr result IsFaultOrMemory }
        ensures looked { T.Tells → OnlyLooked (failed_in failed_call result)
            (T.history tree.old) (T.history tree.new) (T.fields tree.old) (T.fields tree.new)
            (T.before_failed tree.old) (T.before_failed tree.new) }
        ensures faults { T.faults tree.new ≡
            faults_with (failed_in failed_call result) (T.faults tree.old) }
        ensures unchanged { T.changes tree.new ≡ T.changes tree.old }
    {
        let lines = listed_lines(alloc, tree, &Path::root(alloc), &switches)?;
        Ok(Self::with_lines(alloc, switches, lines)?)
    }

    /// A buffer of these lines, in one section of the root that is shown. Its switches are those of `-Al`.
    ///
    /// # Errors
    /// Want of memory.
    pub fn of_lines(alloc: Global, lines: Vec<Line>) -> Result<Self, Memory>
        ensures { IfOk result (λ b. b ≡ of_root all_lines lines.items) }
    {
        let switches = Switches {
            all: true,
            by_time: false,
            by_size: false,
            reverse: false,
        };
        Self::with_lines(alloc, switches, lines)
    }

    // A buffer of these lines with these switches.
    fn with_lines(alloc: Global, switches: Switches, lines: Vec<Line>) -> Result<Self, Memory>
        ensures { IfOk result (λ b. b ≡ of_root switches lines.items) }
    {
        let mut rows = UndoRows::new(alloc)?;
        make_rows(&mut rows, Path::root(alloc), false, lines)?;
        Self::of_rows(alloc, switches, rows)
    }

    // A buffer of rows that were made, the head of the root first.
    fn of_rows(alloc: Global, switches: Switches, mut rows: UndoRows) -> Result<Self, Memory>
        requires made { rows ≡ with_made rows.values no_rows }
        requires root { IsRootFirst rows.values }
        ensures { IfOk result (λ b. b ≡ of_sections switches (sections_of rows.values)) }
    {
        rows.put(None);
        rows.forget();
        let kept = Vec::with_capacity(alloc, rows.len())?;
        Ok(Buffer {
            rows,
            switches,
            kept,
        })
    }

    /// The rows: for each section in order its head and then its lines, those of hidden sections too. They are list 0.
    pub fn rows(&self) -> &Rows<BufferRow>
        ensures { HasValues result.now 0 (rows_of self.now.sections) }
    {
        self.rows.rows()
    }

    /// How many rows there are: the head of each section, and its lines.
    pub fn row_count(&self) -> usize
        ensures { result ≡ length (rows_of self.now.sections) }
    {
        self.rows.rows_differ();
        self.rows.len()
    }

    /// Copies of the sections, in order.
    ///
    /// # Errors
    /// Want of memory.
    pub fn sections(&self) -> Result<Vec<Section>, Memory>
        ensures { IfOk result (λ sections. sections.items ≡ self.now.sections) }
    {
        copy_sections(*self.kept.allocator(), &self.rows)
    }

    /// Writes the text of the buffer: `dired 1`, and behind it each section, with an empty line between two. A section that
    /// is shown has its header, the line `  total N` with the number of lines that are printed, and these, each behind
    /// the mark of its path or a space. Lines whose paths are among `omitted` aren't printed. A hidden section is its header
    /// alone, which ends with `: ...` (GNU Emacs Manual, "Hiding Subdirectories").
    ///
    /// # Errors
    /// `Failed` where the output failed; want of memory, and then nothing was written.
    pub fn print<W: Sink>(
        &self,
        marks: &Marks,
        omitted: &[Path],
        sink: &mut W,
    ) -> Result<(), PrintEnd>
        ensures taken { W.Tells → PrintsAs result
            (printed marks.now.marks (λ p. is_among p omitted.now) self.now.sections)
            (W.taken sink.old) (W.taken sink.new) }
        ensures faults { W.faults sink.new ≡ faults_behind result (W.faults sink.old) }
    {
        let Ok(text) = self.text(marks, omitted) else {
            return Err(PrintEnd::Memory);
        };
        match sink.put(text.as_slice()) {
            Ok(()) => Ok(()),
            Err(_) => Err(PrintEnd::Failed),
        }
    }

    // The text of the buffer.
    fn text(&self, marks: &Marks, omitted: &[Path]) -> Result<Bytes, Memory>
        ensures { IfOk result (λ text. text ≡
            printed marks.now.marks (λ p. is_among p omitted.now) self.now.sections) }
    {
        let sections = self.sections()?;
        text_of(*self.kept.allocator(), sections, marks, omitted)
    }

    /// Whether the lines of a directory's section are hidden, or None where there is no such section.
    pub fn is_hidden(&self, dir: &Path) -> Option<bool>
        ensures { result ≡ hidden_at dir.now self.now.sections }
    {
        section_hidden(&self.rows, dir)
    }

    /// Hides the lines of a directory's section, or of one that is hidden nothing more.
    ///
    /// # Errors
    /// `NotThere` where there is no such section.
    pub fn hide(&mut self, dir: &Path) -> Result<(), BufferEnd>
        ensures { Leads (turned dir.now true self.old) result self.old self.new }
    {
        self.turn(dir, true)
    }

    /// Shows the lines of a directory's section.
    ///
    /// # Errors
    /// `NotThere` where there is no such section.
    pub fn show(&mut self, dir: &Path) -> Result<(), BufferEnd>
        ensures { Leads (turned dir.now false self.old) result self.old self.new }
    {
        self.turn(dir, false)
    }

    fn turn(&mut self, dir: &Path, hidden: bool) -> Result<(), BufferEnd>
        ensures { Leads (turned dir.now hidden self.old) result self.old self.new }
    {
        let Some(head) = head_row(&self.rows, dir) else {
            return Err(BufferEnd::NotThere);
        };
        self.rows.rows_differ();
        self.rows.set_hidden(head, hidden);
        Ok(())
    }

    /// Takes the line of a path out.
    ///
    /// # Errors
    /// `NotThere` where no section that is shown has that line.
    pub fn kill_line(&mut self, path: &Path) -> Result<(), BufferEnd>
        ensures { Leads (line_killed path.now self.old) result self.old self.new }
    {
        let Some(row) = line_row(&self.rows, path) else {
            return Err(BufferEnd::NotThere);
        };
        self.rows.rows_differ();
        self.rows.take(row);
        keep(&mut self.kept, Kept::Kill(1));
        Ok(())
    }

    /// Takes the section of a directory out, its head and its lines.
    ///
    /// # Errors
    /// `NotThere` where there is no such section, and for the root's.
    pub fn kill_section(&mut self, dir: &Path) -> Result<(), BufferEnd>
        ensures { Leads (section_killed dir.now self.old) result self.old self.new }
    {
        if dir.names().is_empty() {
            return Err(BufferEnd::NotThere);
        }
        let Some(head) = head_row(&self.rows, dir) else {
            return Err(BufferEnd::NotThere);
        };
        self.rows.rows_differ();
        let count = take_section(&mut self.rows, head);
        keep(&mut self.kept, Kept::Kill(count));
        Ok(())
    }

    /// Puts the section of a directory in before those of later directories, shown, with the lines that a tree gives of it.
    ///
    /// # Errors
    /// `NoSuchDir` where nothing stands at the directory, `NotDirectory` where something else does, `AlreadyThere` where
    /// the section is there; `TreeFault` names the call that failed; want of memory. The buffer is then unchanged.
    pub fn insert<T: Tree>(&mut self, tree: &mut T, dir: &Path) -> Result<(), BufferEnd>
        ensures put { OnOk result (IsPutIn
            (λ lines. T.Tells → IsListed self.old.switches (current_tree (T.history tree.old))
            (T.fields tree.old) dir.now lines) dir.now self.old self.new) }
        ensures end { T.Tells → EndsAs
            (insert_refusal (get (current_tree (T.history tree.old)) dir.now)
            (is_among_sections dir.now self.old.sections)) result }
        ensures kept { OnErr result (self.new ≡ self.old) }
        ensures looked { T.Tells → OnlyLooked (failed_in failed_call result)
            (T.history tree.old) (T.history tree.new) (T.fields tree.old) (T.fields tree.new)
            (T.before_failed tree.old) (T.before_failed tree.new) }
        ensures faults { T.faults tree.new ≡
            faults_with (failed_in failed_call result) (T.faults tree.old) }
        ensures unchanged { T.changes tree.new ≡ T.changes tree.old }
    {
        match kind_at(tree, dir)? {
            None => return Err(BufferEnd::NoSuchDir),
            Some(Kind::Dir) => {}
            Some(_) => return Err(BufferEnd::NotDirectory),
        }
        if head_row(&self.rows, dir).is_some() {
            return Err(BufferEnd::AlreadyThere);
        }
        let alloc = *self.kept.allocator();
        let lines = listed_lines(alloc, tree, dir, &self.switches)?;
        self.put_section(dir.copy()?, lines)?;
        Ok(())
    }

    // Puts the section of a directory in, shown, with these lines.
    fn put_section(&mut self, dir: Path, lines: Vec<Line>) -> Result<(), Memory>
        ensures ok { OnOk result (self.new ≡ inserted dir lines.items self.old) }
        ensures err { OnErr result (self.new ≡ self.old) }
    {
        // Room to kill each row, and for this insertion.
        let held = changes_of(&self.kept) + self.rows.len() + lines.len();
        let Some(room) = held.checked_add(2) else {
            return Err(Memory);
        };
        if self.kept.reserve(room - self.kept.len()).is_err() {
            return Err(Memory);
        }
        self.rows.rows_differ();
        let (after, count) = place_behind(&self.rows, &dir);
        let Ok(head) = make_rows(&mut self.rows, dir, false, lines) else {
            self.rows.give_up();
            return Err(Memory);
        };
        self.rows.put(after);
        keep(&mut self.kept, Kept::Insertion(count, head));
        Ok(())
    }

    /// Takes the section out that was put in last.
    ///
    /// # Errors
    /// `NotThere` where a kill or another insertion is still to be undone first, or nothing was put in.
    pub fn uninsert(&mut self, dir: &Path) -> Result<(), BufferEnd>
        ensures { Leads (uninserted dir.now self.old) result self.old self.new }
    {
        self.rows.rows_differ();
        let Some(Kept::Insertion(_, head)) = self.kept.last().copied() else {
            return Err(BufferEnd::NotThere);
        };
        if !is_of(self.rows.get(head), dir) {
            return Err(BufferEnd::NotThere);
        }
        self.rows.undo();
        let _ = self.kept.pop();
        Ok(())
    }

    /// Lists every section again, as [`revert_with`](Self::revert_with) does, with the switches that the buffer has.
    ///
    /// # Errors
    /// `TreeFault` names the call that failed; want of memory. The buffer is then unchanged.
    pub fn revert<T: Tree>(&mut self, tree: &mut T, moved: &[(Path, Path)]) -> Result<(), BufferEnd>
        requires root { RootStays moved.now }
        ensures listed { T.Tells → OnOk result (AreListed self.old.switches
            (current_tree (T.history tree.old)) (T.fields tree.old)
            (standing (current_tree (T.history tree.old))
            (places_after moved.now self.old.sections))
            self.new.sections) }
        ensures relisted { OnOk result (IsRelisted self.old.switches self.new) }
        ensures end { IfErr result IsFaultOrMemory }
        ensures kept { OnErr result (self.new ≡ self.old) }
        ensures looked { T.Tells → OnlyLooked (failed_in failed_call result)
            (T.history tree.old) (T.history tree.new) (T.fields tree.old) (T.fields tree.new)
            (T.before_failed tree.old) (T.before_failed tree.new) }
        ensures faults { T.faults tree.new ≡
            faults_with (failed_in failed_call result) (T.faults tree.old) }
        ensures unchanged { T.changes tree.new ≡ T.changes tree.old }
    {
        let switches = self.switches;
        self.revert_with(tree, switches, moved)
    }

    /// Lists every section again with these switches, in path order and hidden exactly where it was hidden. Each pair is
    /// where a directory stood and where it stands now; the first that is of a section's directory says where that is, and
    /// the others stay. Of two sections that come to one directory the later counts. A section where no directory stands
    /// any more is dropped, and nothing can be undone any more (GNU Emacs Manual, "Dired Updating").
    ///
    /// # Errors
    /// `TreeFault` names the call that failed; want of memory. The buffer is then unchanged.
    pub fn revert_with<T: Tree>(
        &mut self,
        tree: &mut T,
        switches: Switches,
        moved: &[(Path, Path)],
    ) -> Result<(), BufferEnd>
        requires root { RootStays moved.now }
        ensures listed { T.Tells → OnOk result (AreListed switches
            (current_tree (T.history tree.old)) (T.fields tree.old)
            (standing (current_tree (T.history tree.old))
            (places_after moved.now self.old.sections))
            self.new.sections) }
        ensures relisted { OnOk result (IsRelisted switches self.new) }
        ensures end { IfErr result IsFaultOrMemory }
        ensures kept { OnErr result (self.new ≡ self.old) }
        ensures looked { T.Tells → OnlyLooked (failed_in failed_call result)
            (T.history tree.old) (T.history tree.new) (T.fields tree.old) (T.fields tree.new)
            (T.before_failed tree.old) (T.before_failed tree.new) }
        ensures faults { T.faults tree.new ≡
            faults_with (failed_in failed_call result) (T.faults tree.old) }
        ensures unchanged { T.changes tree.new ≡ T.changes tree.old }
    {
        let alloc = *self.kept.allocator();
        let places = moved_places(alloc, &self.rows, moved)?;
        let rows = list_places(alloc, tree, &switches, &places)?;
        let again = Self::of_rows(alloc, switches, rows)?;
        *self = again;
        Ok(())
    }

    /// Puts the rows of the last kill back where they stood.
    ///
    /// # Errors
    /// `NotThere` where no kill is left, or a section was put in since.
    pub fn unkill(&mut self) -> Result<(), BufferEnd>
        ensures { Leads (unkilled self.old) result self.old self.new }
    {
        self.rows.rows_differ();
        match self.kept.last() {
            Some(Kept::Kill(_)) => {}
            _ => return Err(BufferEnd::NotThere),
        }
        if let Some(Kept::Kill(count)) = self.kept.pop() {
            undo_kill(&mut self.rows, count);
        }
        Ok(())
    }
}

/// After any kills of lines and of sections, as many [`unkill`](Buffer::unkill) give back the buffer from before.
pub fn kills_come_back(buffer: &Buffer)
    ensures { KillsComeBack buffer.now }
{
    let _kept = &buffer.kept;
}

/// [`uninsert`](Buffer::uninsert) behind [`insert`](Buffer::insert) leaves the buffer from before, whatever lines were put in.
pub fn insertions_come_back(buffer: &Buffer)
    ensures { InsertionsComeBack buffer.now }
{
    let _kept = &buffer.kept;
}
