// The sections of a listing.
ghost use Rattle.std.specs.Prelude.{◌≡◌, All, IfOk, IfErr, OnOk, None, map};
ghost use Rattle.std.specs.FinMap.{get};
ghost use Rattle.tree_core.specs.FileTree.{IsDir, is_dir_node};
ghost use Rattle.tree_core.specs.History.{current_tree};
ghost use Rattle.subdir_list.specs.Listings.{IsListing, IsSection, first_other, listed_paths, Refuses, failed_call};
ghost use Rattle.tree_core.specs.Looks.{OnlyLooked, failed_in, faults_with};

use crate::ListEnd;
use crate::lines::list_dir;
use dired_text::{Bytes, Memory, Path};
use listing_text::{Line, Switches, section_text};
use std::alloc::Global;
use std::collections::BTreeSet;
use tree_core::{CallName, Kind, Tree};

/// The text of a listing: `dired 1`, and behind it one section for the root and one for each of these directories, each
/// once, in the order of their paths, with an empty line between two. The directories are looked at in the order in which
/// they are given.
///
/// # Errors
/// `NotDirectory` with the first at which no directory stands; `TreeFault` names the call that failed.
pub fn list_dirs<T: Tree>(
    alloc: Global,
    tree: &mut T,
    dirs: &[Path],
    switches: &Switches,
) -> Result<Bytes, ListEnd>
    ensures listing { T.Tells → IfOk result
        (λ text.
        IsListing switches.now (current_tree (T.history tree.old))
        (T.fields tree.old) dirs.now text) }
    ensures all { T.Tells → OnOk result (first_other (current_tree (T.history tree.old)) dirs.now ≡
        None) }
    ensures refused { T.Tells → IfErr result
        (λ end. Refuses end (first_other (current_tree (T.history tree.old)) dirs.now)) }
    ensures looked { T.Tells → OnlyLooked (failed_in failed_call result)
        (T.history tree.old) (T.history tree.new) (T.fields tree.old) (T.fields tree.new)
        (T.before_failed tree.old) (T.before_failed tree.new) }
    ensures faults { T.faults tree.new ≡
        faults_with (failed_in failed_call result) (T.faults tree.old) }
    ensures unchanged { T.changes tree.new ≡ T.changes tree.old }
{
    let paths = paths_of(alloc, tree, dirs)?;
    let mut text = Vec::new(alloc);
    text.extend_from_slice(b"dired 1")?;
    for path in &paths {
        let section = section_of(alloc, tree, path, switches)?;
        text.push(b'\n')?;
        text.extend_from_slice(section.as_slice())?;
    }
    Ok(Bytes::from_vec(text))
}

// The root and these directories, each once, in the order of their paths.
fn paths_of<T: Tree>(alloc: Global, tree: &mut T, dirs: &[Path]) -> Result<Vec<Path>, ListEnd>
    ensures paths { IfOk result (λ paths. paths.items ≡ listed_paths dirs.now) }
    ensures dirs { T.Tells → IfOk result
        (λ paths. All (λ p. IsDir (current_tree (T.history tree.old)) p) paths.items) }
    ensures all { T.Tells → OnOk result (first_other (current_tree (T.history tree.old)) dirs.now ≡
        None) }
    ensures refused { T.Tells → IfErr result
        (λ end. Refuses end (first_other (current_tree (T.history tree.old)) dirs.now)) }
    ensures looked { T.Tells → OnlyLooked (failed_in failed_call result)
        (T.history tree.old) (T.history tree.new) (T.fields tree.old) (T.fields tree.new)
        (T.before_failed tree.old) (T.before_failed tree.new) }
    ensures faults { T.faults tree.new ≡
        faults_with (failed_in failed_call result) (T.faults tree.old) }
    ensures unchanged { T.changes tree.new ≡ T.changes tree.old }
{
    let mut paths = BTreeSet::new(alloc);
    paths.insert(Path::root(alloc))?;
    for dir in dirs {
        let path = dir.copy()?;
        if !is_dir(tree, dir)? {
            return Err(ListEnd::NotDirectory(path));
        }
        paths.insert(path)?;
    }
    Ok(all_of(alloc, paths)?)
}

// The paths of a set, in their order.
fn all_of(alloc: Global, paths: BTreeSet<Path>) -> Result<Vec<Path>, Memory>
    ensures { IfOk result (λ all. all.items ≡ paths.keys) }
{
    Ok(paths.into_iter().collect(alloc)?)
}

// Whether a directory stands at a path.
fn is_dir<T: Tree>(tree: &mut T, path: &Path) -> Result<bool, ListEnd>
    ensures dir { T.Tells → IfOk result (λ b. b ≡
        is_dir_node (get (current_tree (T.history tree.old)) path.now)) }
    ensures refused { IfErr result (λ end. end ≡ ListEnd.TreeFault CallName.Kind) }
    ensures looked { T.Tells → OnlyLooked (failed_in failed_call result)
        (T.history tree.old) (T.history tree.new) (T.fields tree.old) (T.fields tree.new)
        (T.before_failed tree.old) (T.before_failed tree.new) }
    ensures faults { T.faults tree.new ≡
        faults_with (failed_in failed_call result) (T.faults tree.old) }
    ensures unchanged { T.changes tree.new ≡ T.changes tree.old }
{
    match tree.kind(path) {
        Ok(kind) => Ok(kind == Some(Kind::Dir)),
        Err(_) => Err(ListEnd::TreeFault(CallName::Kind)),
    }
}

// The text of a directory's section.
fn section_of<T: Tree>(
    alloc: Global,
    tree: &mut T,
    dir: &Path,
    switches: &Switches,
) -> Result<Bytes, ListEnd>
    requires dir { T.Tells → IsDir (current_tree (T.history tree.old)) dir.now }
    ensures section { T.Tells → IfOk result
        (λ text.
        IsSection switches.now (current_tree (T.history tree.old))
        (T.fields tree.old) dir.now text) }
    ensures refused { IfErr result (λ end. Refuses end None) }
    ensures looked { T.Tells → OnlyLooked (failed_in failed_call result)
        (T.history tree.old) (T.history tree.new) (T.fields tree.old) (T.fields tree.new)
        (T.before_failed tree.old) (T.before_failed tree.new) }
    ensures faults { T.faults tree.new ≡
        faults_with (failed_in failed_call result) (T.faults tree.old) }
    ensures unchanged { T.changes tree.new ≡ T.changes tree.old }
{
    let lines = list_dir(alloc, tree, dir, switches)?;
    Ok(section_text(alloc, dir, &marked(alloc, lines)?)?)
}

// Lines, each behind a space in place of a mark.
fn marked(alloc: Global, lines: Vec<Line>) -> Result<Vec<(u8, Line)>, Memory>
    ensures { IfOk result (λ marked. marked.items ≡ map (λ line. (32, line)) lines.items) }
{
    Ok(lines.into_iter().map(|line| (b' ', line)).collect(alloc)?)
}
