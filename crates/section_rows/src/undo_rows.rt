// Rows in one order, with undo.
ghost use Rattle.std.specs.Prelude.{◌≡◌, ◌<◌, ◌≤◌, ◌++◌, ◌∷◌, [], Contains, IfOk, IfSome, OnOk, OnErr, drop, length, slice_index_or, vec_len, vec_capacity};
ghost use Rattle.std.specs.Option.{option_map};
ghost use Rattle.link_rows.specs.Net.{AllBelow};
ghost use Rattle.link_rows.proofs.NetLemmas.{Unique};
ghost use Rattle.link_rows.specs.Values.{HasValues};
ghost use Rattle.section_rows.specs.Orders.{AreOut, forgotten, from_row, given_up, last_taken, no_rows, pushed_row, put_in, rows_from, taken, undone, values_in, with_hidden, with_value};

use crate::BufferRow;
use crate::undo::Undo;
use dired_text::Memory;
use link_rows::{ListId, RowId, Rows, a_list_is_of_values, an_unlinked_row_keeps_its_neighbours};
use std::alloc::Global;
use std::marker::Model;

// At most so many rows are pushed.
const MAX_ROWS: u32 = 4294967294;

// Keeps a step, for which there is room.
fn keep(undo: &mut Vec<Undo>, step: Undo)
    requires { vec_len undo.old < vec_capacity undo.old }
    ensures items { undo.new.items ≡ undo.old.items ++ step ∷ [] }
    ensures capacity { vec_capacity undo.old ≤ vec_capacity undo.new }
{
    let _ = undo.push(step);
}

/// Rows in one order. Rows are taken out of it and runs of new rows are put in, and these steps can be undone, the last
/// first. No step but [`push`](Self::push) takes memory.
#[derive(Drop)]
pub struct UndoRows {
    rows: Rows<BufferRow>,
    len: u32,
    count: usize,
    built: u32,
    undo: Vec<Undo>,
}

impl Model for UndoRows {
    ghost use Rattle.std.specs.Prelude.{◌≡◌, length, reverse, vec_capacity};
    ghost use Rattle.section_rows.specs.Orders.{Ordered};
    ghost use Rattle.section_rows.specs.Kept.{IsHeld, seen};

    ghost Value = { Ordered };

    ghost view = { λ u. seen u.rows.net u.count u.built u.rows.values (reverse u.undo.items) };

    ghost invariant = { λ u. IsHeld u.rows.net u.count u.built u.len (vec_capacity u.undo) (reverse u.undo.items) × (length u.rows.values ≡ u.len) };
}

// A clause sees the rows by their numbers.
impl UndoRows {
    /// No rows.
    ///
    /// # Errors
    /// Want of memory.
    pub fn new(alloc: Global) -> Result<Self, Memory>
        ensures { IfOk result (λ t. t ≡ no_rows) }
    {
        Ok(UndoRows {
            rows: Rows::new(alloc, 3)?,
            len: 0,
            count: 0,
            built: 0,
            undo: Vec::new(alloc),
        })
    }

    /// Makes a new row with this value, behind those that are to be put in.
    ///
    /// # Errors
    /// Want of memory, as which more than 4,294,967,294 rows count.
    pub fn push(&mut self, value: BufferRow) -> Result<RowId, Memory>
        ensures row { IfOk result (λ row. row.0 ≡ length self.old.values) }
        ensures ok { OnOk result (self.new ≡ pushed_row value self.old) }
        ensures err { OnErr result (self.new ≡ self.old) }
    {
        if self.len >= MAX_ROWS {
            return Err(Memory);
        }
        // Room for each row to be put in and to be taken out.
        let built = self.built as usize + 1;
        if self.undo.reserve(self.count + built + built).is_err() {
            return Err(Memory);
        }
        a_list_is_of_values(&self.rows);
        an_unlinked_row_keeps_its_neighbours(&self.rows);
        match self.rows.push_back(ListId(1), value) {
            Err(_) => Err(Memory),
            Ok(row) => {
                self.len += 1;
                self.built += 1;
                Ok(row)
            }
        }
    }

    /// Puts the new rows in, behind this row or in front of all.
    pub fn put(&mut self, after: Option<RowId>)
        requires some { 0 < self.old.built }
        requires after { IfSome after (λ row. Contains self.old.order row.0) }
        ensures { self.new ≡ put_in (option_map (λ row. row.0) after) self.old }
    {
        let first = self.len - self.built;
        self.rows.splice(ListId(0), after, ListId(1));
        keep(&mut self.undo, Undo::Put(first, self.built));
        self.count += self.built as usize;
        self.built = 0;
    }

    /// Gives the new rows up.
    pub fn give_up(&mut self)
        ensures { self.new ≡ given_up self.old }
    {
        self.rows.splice(ListId(2), None, ListId(1));
        self.built = 0;
    }

    /// Takes a row out.
    pub fn take(&mut self, row: RowId)
        requires { Contains self.old.order row.0 }
        ensures { self.new ≡ taken row.0 self.old }
    {
        self.rows.unlink(row);
        keep(&mut self.undo, Undo::Taken(row));
        self.count -= 1;
    }

    /// Undoes the last step that isn't undone, if there is one. Rows that were put in are then given up, and no rows may
    /// wait to be put in. A row that is put back is answered.
    pub fn undo(&mut self) -> Option<RowId>
        requires { self.old.built ≡ 0 }
        ensures after { self.new ≡ undone self.old }
        ensures row { option_map (λ row. row.0) result ≡ last_taken self.old.steps }
    {
        match self.undo.pop()? {
            Undo::Taken(row) => {
                self.rows.relink(row);
                self.count += 1;
                Some(row)
            }
            Undo::Put(first, count) => {
                let last = first + (count - 1);
                self.rows
                    .cut(ListId(0), RowId(first), RowId(last), ListId(1));
                self.rows.splice(ListId(2), None, ListId(1));
                self.count -= count as usize;
                None
            }
        }
    }

    /// From now on no earlier step is undone.
    pub fn forget(&mut self)
        ensures { self.new ≡ forgotten self.old }
    {
        self.undo.clear();
    }

    /// Each row of the order has a value, none stands in the order twice, and those that were taken out stand in it no more.
    pub fn rows_differ(&self)
        ensures below { AllBelow (length self.now.values) self.now.order }
        ensures once { Unique self.now.order }
        ensures out { AreOut self.now.order self.now.steps }
    {
        let _len = self.len;
    }

    /// How many rows the order has.
    pub fn len(&self) -> usize
        ensures { result ≡ length self.now.order }
    {
        self.count
    }

    /// The first row of the order.
    pub fn first(&self) -> Option<RowId>
        ensures within { IfSome result (λ row. Contains self.now.order row.0) }
        ensures rest { rows_from (option_map (λ row. row.0) result) self.now.order ≡
            self.now.order }
    {
        self.rows.first(ListId(0))
    }

    /// The row behind a row of the order.
    pub fn next(&self, row: RowId) -> Option<RowId>
        requires { Contains self.now.order row.0 }
        ensures within { IfSome result (λ row. Contains self.now.order row.0) }
        ensures rest { rows_from (option_map (λ row. row.0) result) self.now.order ≡
            drop 1 (from_row row.0 self.now.order) }
    {
        self.rows.next(row)
    }

    /// The value of a row.
    pub fn get(&self, row: RowId) -> &BufferRow
        requires { row.0 < length self.now.values }
        ensures { result.now ≡ slice_index_or self.now.values row.0 result.now }
    {
        self.rows.get(row)
    }

    /// Hides or shows the section of a head. A line stays as it is.
    pub fn set_hidden(&mut self, row: RowId, hidden: bool)
        requires { row.0 < length self.old.values }
        ensures { self.new ≡ record self.old
            { values = with_value (with_hidden hidden) row.0 self.old.values } }
    {
        match self.rows.get_mut(row) {
            BufferRow::Head { hidden: was, .. } => *was = hidden,
            BufferRow::Line(_) => {}
        }
    }

    /// The rows. Their list 0 has the rows in their order.
    pub fn rows(&self) -> &Rows<BufferRow>
        ensures { HasValues result.now 0 (values_in self.now.values self.now.order) }
    {
        &self.rows
    }
}
