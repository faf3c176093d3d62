// The files that meet a predicate.
ghost use Rattle.std.specs.Prelude.{◌≡◌, ◌≢◌, ◌++◌, [], Some, IfOk, OnOk};
ghost use Rattle.std.specs.Option.{option_map};
ghost use Rattle.std.specs.FinMap.{get};
ghost use Rattle.tree_core.specs.FileTree.{Stands, kind_of};
ghost use Rattle.tree_core.specs.Fields.{IsMeta, names_in};
ghost use Rattle.tree_core.specs.History.{current_tree};
ghost use Rattle.tree_core.specs.Looks.{OnlyLooked, failed_in, faults_with};
ghost use Rattle.find_listing.specs.Finds.{failed_call, lines_found, line_if, AreFound};
ghost use Rattle.find_listing.specs.Walks.{children, pending, IsAdded, IsEntered};

use crate::FindEnd;
use crate::looks::{is_met, line_of, meta_at, names_in_dir};
use crate::walk::{Step, Walk};
use dired_text::{Memory, Path};
use find_words::Predicate;
use listing_text::Line;
use std::alloc::Global;
use tree_core::{Kind, Meta, Tree};

/// The lines of all paths but the root that meet a predicate at a moment in seconds since 1970: each directory before what stands in
/// it, siblings by the bytes of their names. The name of a line is its path from the root. No link is followed, and no path
/// that has more than 4,095 bytes is listed.
///
/// # Errors
/// `TreeFault` names the call that failed.
pub fn find<T: Tree>(
    alloc: Global,
    tree: &mut T,
    predicate: &Predicate,
    now: i64,
) -> Result<Vec<Line>, FindEnd>
    ensures lines { T.Tells → IfOk result (λ lines. lines.items
        ≡ lines_found (current_tree (T.history tree.old)) (T.fields tree.old) now predicate.now) }
    ensures lawful { IfOk result (λ lines. AreFound lines.items) }
    ensures looked { T.Tells → OnlyLooked (failed_in failed_call result)
        (T.history tree.old) (T.history tree.new) (T.fields tree.old) (T.fields tree.new)
        (T.before_failed tree.old) (T.before_failed tree.new) }
    ensures faults { T.faults tree.new ≡
        faults_with (failed_in failed_call result) (T.faults tree.old) }
    ensures unchanged { T.changes tree.new ≡ T.changes tree.old }
{
    let root = Path::root(alloc);
    let names = names_in_dir(alloc, tree, &root)?;
    let mut walk = Walk::new(alloc, root, names);
    let mut lines = Vec::new(alloc);
    loop {
        match walk.next()? {
            Step::End => return Ok(lines),
            Step::TooLong => {}
            Step::At(path) => visit(alloc, tree, predicate, now, path, &mut walk, &mut lines)?,
        }
    }
}

// Visits a path: its line is added where what stands there meets the predicate, and what stands in it comes next.
fn visit<T: Tree>(
    alloc: Global,
    tree: &mut T,
    predicate: &Predicate,
    now: i64,
    path: Path,
    walk: &mut Walk,
    lines: &mut Vec<Line>,
) -> Result<(), FindEnd>
    requires some { path ≢ [] }
    requires stands { T.Tells → Stands (current_tree (T.history tree.old)) path }
    ensures lines { T.Tells → OnOk result (lines.new.items
        ≡ lines.old.items ++ line_if now predicate.now path (T.fields tree.old path)) }
    ensures names { T.Tells → OnOk result (pending walk.new
        ≡ children path (names_in (current_tree (T.history tree.old)) path) ++ pending walk.old) }
    ensures added { OnOk result (IsAdded path lines.old.items lines.new.items) }
    ensures entered { OnOk result (IsEntered path (pending walk.old) (pending walk.new)) }
    ensures looked { T.Tells → OnlyLooked (failed_in failed_call result)
        (T.history tree.old) (T.history tree.new) (T.fields tree.old) (T.fields tree.new)
        (T.before_failed tree.old) (T.before_failed tree.new) }
    ensures faults { T.faults tree.new ≡
        faults_with (failed_in failed_call result) (T.faults tree.old) }
    ensures unchanged { T.changes tree.new ≡ T.changes tree.old }
{
    let meta = meta_at(alloc, tree, &path)?;
    let kind = meta.kind;
    add_line(alloc, predicate, now, &path, meta, lines)?;
    enter(alloc, tree, path, kind, walk)
}

// Adds the line of a path, where what stands there meets the predicate.
fn add_line(
    alloc: Global,
    predicate: &Predicate,
    now: i64,
    path: &Path,
    meta: Meta,
    lines: &mut Vec<Line>,
) -> Result<(), Memory>
    requires some { path.now ≢ [] }
    requires lawful { IsMeta meta }
    ensures lines { OnOk result (lines.new.items ≡ lines.old.items
        ++ line_if now predicate.now path.now meta) }
    ensures added { OnOk result (IsAdded path.now lines.old.items lines.new.items) }
{
    if is_met(alloc, predicate, path.names(), &meta, now)? {
        lines.push(line_of(path, meta)?)?;
    }
    Ok(())
}

// What stands in a path, where a directory stands there, comes next.
fn enter<T: Tree>(
    alloc: Global,
    tree: &mut T,
    path: Path,
    kind: Kind,
    walk: &mut Walk,
) -> Result<(), FindEnd>
    requires kind { T.Tells → option_map kind_of (get (current_tree (T.history tree.old)) path) ≡
        Some kind }
    ensures names { T.Tells → OnOk result (pending walk.new
        ≡ children path (names_in (current_tree (T.history tree.old)) path) ++ pending walk.old) }
    ensures entered { OnOk result (IsEntered path (pending walk.old) (pending walk.new)) }
    ensures looked { T.Tells → OnlyLooked (failed_in failed_call result)
        (T.history tree.old) (T.history tree.new) (T.fields tree.old) (T.fields tree.new)
        (T.before_failed tree.old) (T.before_failed tree.new) }
    ensures faults { T.faults tree.new ≡
        faults_with (failed_in failed_call result) (T.faults tree.old) }
    ensures unchanged { T.changes tree.new ≡ T.changes tree.old }
{
    if kind != Kind::Dir {
        return Ok(());
    }
    let names = names_in_dir(alloc, tree, &path)?;
    walk.enter(path, names)?;
    Ok(())
}
