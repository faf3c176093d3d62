// Rows with values, and several lists over them.
ghost use Rattle.std.specs.Prelude.{◌≡◌, ◌==◌, ◌≢◌, ◌+◌, ◌^◌, ◌<◌, ◌≤◌, ◌++◌, ◌∷◌, [], ℕ, List, IfOk, IfErr, IfSome, IsOk, OnOk, OnErr, length, is_ok, if◌then◌else◌, slice_index_or};
ghost use Rattle.std.specs.Option.{option_map};
ghost use Rattle.link_rows.specs.Net.{cut_out, next_of, pushed, relinked, spliced, unlinked, Cuts, IsList, Pushes, Relinks, Splices, Unlinks, CanRelink, nodes};
ghost use Rattle.link_rows.specs.Tables.{first_row, node, place_of, row_of};

use crate::links::Links;
use dired_text::Memory;
use std::alloc::Global;
use std::marker::Model;

/// A list of [`Rows`], by its number from 0.
#[derive(Clone, Copy, Debug, PartialEq, Eq, Drop)]
pub struct ListId(pub u32);

/// A row of [`Rows`], by its number from 0 in the order of the pushes.
#[derive(Clone, Copy, Debug, PartialEq, Eq, Drop)]
pub struct RowId(pub u32);

/// Rows that hold values, and several lists of such rows. A row stands in one list at most. Each call takes a time that
/// does not grow with the number of rows, but for the time of an allocation.
#[derive(Drop)]
pub struct Rows<T> {
    pub(crate) links: Links,
    values: Vec<T>,
}

impl<T> Model for Rows<T> {
    ghost use Rattle.std.specs.Prelude.{◌≡◌, ◌+◌, ◌-◌, ◌≤◌, ◌<◌, ◌^◌, min, vec_capacity, length};
    ghost use Rattle.link_rows.specs.Net.{nodes};
    ghost use Rattle.link_rows.specs.Tables.{Table, table_code};

    ghost Value = { Table T };

    ghost coded = { table_code T.code };

    ghost view = { λ r. record { net = r.links.0; values = r.values.items; spare = min r.links.1 (vec_capacity r.values - length r.values.items) } };

    ghost invariant = { λ r. (nodes r.links.0 ≡ r.links.0.heads + length r.values.items) × (length r.values.items < 2 ^ 32) };
}

impl<T> Rows<T> {
    ghost use Rattle.std.specs.Borrow.{sem};
    ghost use Rattle.link_rows.specs.RowLends.{lends_value};

    /// So many lists, all empty.
    ///
    /// # Errors
    /// Want of memory.
    pub fn new(alloc: Global, lists: u32) -> Result<Self, Memory>
        ensures lists { IfOk result (λ r. (l : ℕ) → l < lists → IsList r.net l []) }
        ensures values { IfOk result (λ r. r.values ≡ []) }
        ensures made { IfOk result (λ r. r.net.heads ≡ lists) }
    {
        Ok(Rows {
            links: Links::new(alloc, lists)?,
            values: Vec::new(alloc),
        })
    }

    /// Makes room for so many rows more. Until then a push that answers Ok takes the room of one row at most, and no
    /// other call takes room.
    ///
    /// # Errors
    /// Want of memory.
    pub fn reserve(&mut self, more: u32) -> Result<(), Memory>
        ensures net { self.new.net ≡ self.old.net }
        ensures values { self.new.values ≡ self.old.values }
        ensures spare { self.old.spare ≤ self.new.spare }
        ensures ok { OnOk result (more ≤ self.new.spare) }
    {
        self.links.reserve(more as usize)?;
        self.values.reserve(more as usize)?;
        Ok(())
    }

    /// Takes a row out of its list. It keeps its value, and between which rows it stood.
    pub fn unlink(&mut self, row: RowId)
        requires { row.0 < length self.old.values }
        ensures net { self.new.net ≡ unlinked (node self.old.net row.0) self.old.net }
        ensures lists { Unlinks self.old.net (node self.old.net row.0) self.new.net }
        ensures values { self.new.values ≡ self.old.values }
        ensures heads { self.new.net.heads ≡ self.old.net.heads }
        ensures spare { self.new.spare ≡ self.old.spare }
    {
        let node = self.links.heads() + row.0 as usize;
        self.links.unlink(node);
    }

    /// Puts a row that is in no list back between the two rows, or a row and an end of a list, between which it stood.
    /// These stand side by side.
    pub fn relink(&mut self, row: RowId)
        requires { row.0 < length self.old.values }
        ensures net { self.new.net ≡ relinked (node self.old.net row.0) self.old.net }
        ensures lists { CanRelink self.old.net (node self.old.net row.0) →
            Relinks self.old.net (node self.old.net row.0) self.new.net }
        ensures values { self.new.values ≡ self.old.values }
        ensures heads { self.new.net.heads ≡ self.old.net.heads }
        ensures spare { self.new.spare ≡ self.old.spare }
    {
        let node = self.links.heads() + row.0 as usize;
        self.links.relink(node);
    }

    /// Puts the rows of the list `other`, in their order, behind this row of `list`, or in front of all its rows. `other`,
    /// which is another list, is then empty.
    pub fn splice(&mut self, list: ListId, after: Option<RowId>, other: ListId)
        requires made { list.0 < self.old.net.heads }
        requires other_made { other.0 < self.old.net.heads }
        requires pushed { IfSome after (λ r. r.0 < length self.old.values) }
        ensures net { self.new.net ≡
            (if next_of self.old.net other.0 == other.0 then self.old.net
            else spliced
            (place_of self.old.net list.0 (option_map (λ r. r.0) after)) other.0 self.old.net) }
        ensures lists { Splices self.old.net
            (place_of self.old.net list.0 (option_map (λ r. r.0) after)) other.0 self.new.net }
        ensures values { self.new.values ≡ self.old.values }
        ensures heads { self.new.net.heads ≡ self.old.net.heads }
        ensures spare { self.new.spare ≡ self.old.spare }
    {
        let place = self.place(list, after);
        self.links.splice(place, other.0 as usize);
    }

    /// Takes the rows from `first` to `last` out of `list`. The list `other`, which is another one and empty, has them
    /// then, in their order. `first` is not behind `last`.
    pub fn cut(&mut self, list: ListId, first: RowId, last: RowId, other: ListId)
        requires made { list.0 < self.old.net.heads }
        requires other_made { other.0 < self.old.net.heads }
        requires first_pushed { first.0 < length self.old.values }
        requires last_pushed { last.0 < length self.old.values }
        ensures net { self.new.net ≡
            cut_out (node self.old.net first.0) (node self.old.net last.0) other.0 self.old.net }
        ensures lists { Cuts self.old.net (node self.old.net first.0)
            (node self.old.net last.0) other.0 self.new.net }
        ensures values { self.new.values ≡ self.old.values }
        ensures heads { self.new.net.heads ≡ self.old.net.heads }
        ensures spare { self.new.spare ≡ self.old.spare }
    {
        let _list = list;
        let heads = self.links.heads();
        let (first, last) = (heads + first.0 as usize, heads + last.0 as usize);
        self.links.cut(first, last, other.0 as usize);
    }

    /// The value of a row.
    pub fn get(&self, row: RowId) -> &T
        requires { row.0 < length self.now.values }
        ensures { result.now ≡ slice_index_or self.now.values row.0 result.now }
    {
        &self.values[row.0 as usize]
    }

    /// The value of a row, to be changed.
    pub fn get_mut(&mut self, row: RowId) -> &mut T
        requires { row.0 < length self.old.values }
        ensures* writes_back { sem 𝓛 (lends_value T.row self.entry row.0 result) }
        ensures value { result.now ≡ slice_index_or self.old.values row.0 result.now }
    {
        &mut self.values[row.0 as usize]
    }

    // The node of this row, or the head of the list.
    fn place(&self, list: ListId, after: Option<RowId>) -> usize
        requires made { list.0 < self.now.net.heads }
        requires pushed { IfSome after (λ r. r.0 < length self.now.values) }
        ensures value { result ≡ place_of self.now.net list.0 (option_map (λ r. r.0) after) }
        ensures within { result < nodes self.now.net }
    {
        let _count = self.values.len();
        match after {
            None => list.0 as usize,
            Some(row) => self.links.heads() + row.0 as usize,
        }
    }

    /// A row that is unlinked may be relinked, and all links are then as they were, so all lists are.
    pub fn relink_undoes_unlink(&self, row: RowId)
        ensures { (l : ℕ) (xs ys : List ℕ) →
            IsList self.now.net l (xs ++ node self.now.net row.0 ∷ ys) →
            CanRelink (unlinked (node self.now.net row.0) self.now.net) (node self.now.net row.0) ×
            (relinked (node self.now.net row.0) (unlinked (node self.now.net row.0) self.now.net) ≡
            self.now.net) }
    {
        self.links.are_sound();
    }

    /// A list has one sequence of rows.
    pub fn lists_are_sequences(&self)
        ensures { (l : ℕ) (xs ys : List ℕ) → IsList self.now.net l xs → IsList self.now.net l ys →
            xs ≡ ys }
    {}

    // The row of a node, or None at a head.
    fn row_at(&self, node: usize) -> Option<RowId>
        requires { node < nodes self.now.net }
        ensures row { option_map (λ r. r.0) result ≡ row_of self.now.net node }
        ensures within { IfSome result (λ r. r.0 < length self.now.values) }
    {
        let _count = self.values.len();
        let heads = self.links.heads();
        if node < heads {
            return None;
        }
        Some(RowId((node - heads) as u32))
    }

    /// The first row of a list, or None where it has none.
    pub fn first(&self, list: ListId) -> Option<RowId>
        requires { list.0 < self.now.net.heads }
        ensures within { IfSome result (λ r. r.0 < length self.now.values) }
        ensures row { (xs : List ℕ) → IsList self.now.net list.0 xs → option_map (λ r. r.0) result ≡
            first_row self.now.net xs }
    {
        let _count = self.values.len();
        self.row_at(self.links.next(list.0 as usize))
    }

    /// The row behind a row of a list, or None at the end of the list.
    pub fn next(&self, row: RowId) -> Option<RowId>
        requires { row.0 < length self.now.values }
        ensures within { IfSome result (λ r. r.0 < length self.now.values) }
        ensures row { (l : ℕ) (xs ys : List ℕ) →
            IsList self.now.net l (xs ++ node self.now.net row.0 ∷ ys) →
            option_map (λ r. r.0) result ≡ first_row self.now.net ys }
    {
        let node = self.links.heads() + row.0 as usize;
        self.row_at(self.links.next(node))
    }

    /// Pushes a row with this value at the end of a list. It answers Ok where there is room.
    ///
    /// # Errors
    /// Want of memory, and the value comes back.
    pub fn push_back(&mut self, list: ListId, value: T) -> Result<RowId, (Memory, T)>
        requires made { list.0 < self.old.net.heads }
        requires few { length self.old.values < 4294967295 }
        ensures net { OnOk result (self.new.net ≡ pushed list.0 self.old.net) }
        ensures lists { OnOk result (Pushes self.old.net list.0 self.new.net) }
        ensures row { IfOk result (λ r. r.0 ≡ length self.old.values) }
        ensures values { self.new.values ≡
            (if is_ok result then self.old.values ++ value ∷ [] else self.old.values) }
        ensures refused { OnErr result (self.new.net ≡ self.old.net) }
        ensures value_returned { IfErr result (λ e. e.1 ≡ value) }
        ensures heads { self.new.net.heads ≡ self.old.net.heads }
        ensures spare { self.old.spare ≤ self.new.spare + 1 }
        ensures ok { 0 < self.old.spare → IsOk result }
    {
        let row = self.values.len();
        if self.links.reserve(1).is_err() {
            return Err((Memory, value));
        }
        if let Err(refused) = self.values.push(value) {
            return Err((Memory, refused.value));
        }
        self.links.push_back(list.0 as usize);
        Ok(RowId(row as u32))
    }
}
