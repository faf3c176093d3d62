// Sections that are listed again.
ghost use Rattle.std.specs.Prelude.{◌≡◌, Bool, IfErr, IfOk, OnOk};
ghost use Rattle.std.specs.FinMap.{get};
ghost use Rattle.std.specs.List.Sorted.{IsStrictlySortedBy};
ghost use Rattle.std.specs.Map.{keys_of};
ghost use Rattle.dired_text.specs.Paths.{path_cmp};
ghost use Rattle.subdir_list.specs.Listings.{IsListed};
ghost use Rattle.tree_core.specs.FileTree.{is_dir_node};
ghost use Rattle.tree_core.specs.History.{current_tree};
ghost use Rattle.tree_core.specs.Looks.{OnlyLooked, failed_in, faults_with};
ghost use Rattle.section_rows.specs.Orders.{values_in};
ghost use Rattle.section_buffer.specs.Held.{AreRowsOf, ListsPlace, with_place};
ghost use Rattle.section_buffer.specs.Making.{IsFaultOrMemory, failed_call};
ghost use Rattle.section_buffer.specs.Relisting.{AreListed, IsRootPlace, dir_after as after, places_after, standing};
ghost use Rattle.section_buffer.specs.Rows.{sections_of};

use crate::BufferEnd;
use crate::looking::{is_dir, listed_lines};
use crate::putting::make_rows;
use dired_text::{Memory, Path};
use listing_text::Switches;
use section_rows::{BufferRow, UndoRows};
use std::alloc::Global;
use std::collections::BTreeMap;
use tree_core::Tree;

// Where a directory stands now, by the first pair that is of it.
fn dir_after<'a>(moved: &'a [(Path, Path)], dir: &'a Path) -> &'a Path
    ensures { result.now ≡ after moved.now dir.now }
{
    for (from, to) in moved {
        if from == dir {
            return to;
        }
    }
    dir
}

// Adds where the section of a head stands now, and whether it is hidden.
fn add_place(
    places: &mut BTreeMap<Path, bool>,
    moved: &[(Path, Path)],
    row: &BufferRow,
) -> Result<(), Memory>
    ensures { OnOk result (places.new.entries ≡ with_place moved.now row.now places.old.entries) }
{
    match row {
        BufferRow::Line(_) => Ok(()),
        BufferRow::Head { dir, hidden } => {
            places.insert(dir_after(moved, dir).copy()?, *hidden)?;
            Ok(())
        }
    }
}

// The places of a map, in their order.
fn in_order(alloc: Global, places: BTreeMap<Path, bool>) -> Result<Vec<(Path, bool)>, Memory>
    ensures all { IfOk result (λ all. all.items ≡ places.entries) }
    ensures sorted { IsStrictlySortedBy path_cmp (keys_of places.entries) }
{
    let _count = places.len();
    Ok(places.into_iter().collect(alloc)?)
}

// Where the sections of these rows stand now, and whether each is hidden, in path order.
pub(crate) fn moved_places(
    alloc: Global,
    rows: &UndoRows,
    moved: &[(Path, Path)],
) -> Result<Vec<(Path, bool)>, Memory>
    ensures all { IfOk result (λ places. places.items ≡
        places_after moved.now (sections_of (values_in rows.now.values rows.now.order))) }
    ensures sorted { IfOk result (λ places. IsStrictlySortedBy path_cmp (keys_of places.items)) }
{
    rows.rows_differ();
    let mut places = BTreeMap::new(alloc);
    let mut at = rows.first();
    while let Some(row) = at {
        add_place(&mut places, moved, rows.get(row))?;
        at = rows.next(row);
    }
    in_order(alloc, places)
}

// Makes the rows of a place's section where a directory stands, with the lines that the tree gives of it.
fn list_place<T: Tree>(
    alloc: Global,
    tree: &mut T,
    switches: &Switches,
    rows: &mut UndoRows,
    place: &(Path, bool),
) -> Result<(), BufferEnd>
    ensures listed { OnOk result ((stands : Bool) ×
        (T.Tells → stands ≡ is_dir_node (get (current_tree (T.history tree.old)) place.now.0)) ×
        ListsPlace stands
        (λ lines.
        T.Tells → IsListed switches.now (current_tree (T.history tree.old))
        (T.fields tree.old) place.now.0 lines)
        place.now rows.old rows.new) }
    ensures end { IfErr result IsFaultOrMemory }
    ensures looked { T.Tells → OnlyLooked (failed_in failed_call result)
        (T.history tree.old) (T.history tree.new) (T.fields tree.old) (T.fields tree.new)
        (T.before_failed tree.old) (T.before_failed tree.new) }
    ensures faults { T.faults tree.new ≡
        faults_with (failed_in failed_call result) (T.faults tree.old) }
    ensures unchanged { T.changes tree.new ≡ T.changes tree.old }
{
    let stands = is_dir(tree, &place.0)?;
    if !stands {
        return Ok(());
    }
    let lines = listed_lines(alloc, tree, &place.0, switches)?;
    make_rows(rows, place.0.copy()?, place.1, lines)?;
    Ok(())
}

// The rows of the sections of these places, the root's first, where directories stand.
pub(crate) fn list_places<T: Tree>(
    alloc: Global,
    tree: &mut T,
    switches: &Switches,
    places: &[(Path, bool)],
) -> Result<UndoRows, BufferEnd>
    requires root { IsRootPlace places.now }
    requires sorted { IsStrictlySortedBy path_cmp (keys_of places.now) }
    ensures listed { IfOk result (λ rows. AreRowsOf
        (λ sections. T.Tells → AreListed switches.now (current_tree (T.history tree.old))
        (T.fields tree.old)
        (standing (current_tree (T.history tree.old)) places.now) sections) rows) }
    ensures end { IfErr result IsFaultOrMemory }
    ensures looked { T.Tells → OnlyLooked (failed_in failed_call result)
        (T.history tree.old) (T.history tree.new) (T.fields tree.old) (T.fields tree.new)
        (T.before_failed tree.old) (T.before_failed tree.new) }
    ensures faults { T.faults tree.new ≡
        faults_with (failed_in failed_call result) (T.faults tree.old) }
    ensures unchanged { T.changes tree.new ≡ T.changes tree.old }
{
    let mut rows = UndoRows::new(alloc)?;
    for place in places {
        list_place(alloc, tree, switches, &mut rows, place)?;
    }
    Ok(rows)
}
