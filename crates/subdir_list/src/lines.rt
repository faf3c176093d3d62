// The lines of one directory.
ghost use Rattle.std.specs.Prelude.{◌≡◌, ◌++◌, ◌∷◌, [], All, IfOk, IfErr, None};
ghost use Rattle.std.specs.List.{filter_map};
ghost use Rattle.tree_core.specs.FileTree.{IsDir, Stands};
ghost use Rattle.tree_core.specs.History.{current_tree};
ghost use Rattle.subdir_list.specs.Listings.{is_hidden as is_hidden_name, line_of_meta, line_at, IsListed, Refuses, failed_call};
ghost use Rattle.tree_core.specs.Looks.{OnlyLooked, failed_in, faults_with};

use crate::ListEnd;
use dired_text::{Name, Path, Text};
use listing_text::{Line, Switches, minute_of, order};
use std::alloc::Global;
use tree_core::{CallName, LookEnd, Meta, Tree};

/// The lines of a directory, in the order of the listing: one for each name, hidden ones with the switch alone, and no path
/// that has more than 4,095 bytes.
///
/// # Errors
/// `TreeFault` names the call that failed.
pub fn list_dir<T: Tree>(
    alloc: Global,
    tree: &mut T,
    dir: &Path,
    switches: &Switches,
) -> Result<Vec<Line>, ListEnd>
    requires dir { T.Tells → IsDir (current_tree (T.history tree.old)) dir.now }
    ensures lines { T.Tells → IfOk result
        (λ lines.
        IsListed switches.now (current_tree (T.history tree.old))
        (T.fields tree.old) dir.now lines.items) }
    ensures refused { IfErr result (λ end. Refuses end None) }
    ensures looked { T.Tells → OnlyLooked (failed_in failed_call result)
        (T.history tree.old) (T.history tree.new) (T.fields tree.old) (T.fields tree.new)
        (T.before_failed tree.old) (T.before_failed tree.new) }
    ensures faults { T.faults tree.new ≡
        faults_with (failed_in failed_call result) (T.faults tree.old) }
    ensures unchanged { T.changes tree.new ≡ T.changes tree.old }
{
    let names = match tree.names(alloc, dir) {
        Ok(names) => names,
        Err(LookEnd::Failed) => return Err(ListEnd::TreeFault(CallName::Names)),
        Err(LookEnd::Memory) => return Err(ListEnd::Memory),
    };
    let mut lines = lines_of(alloc, tree, dir, &names, switches)?;
    order(&mut lines, switches);
    Ok(lines)
}

// The lines of these names in a directory, in their order.
fn lines_of<T: Tree>(
    alloc: Global,
    tree: &mut T,
    dir: &Path,
    names: &[Name],
    switches: &Switches,
) -> Result<Vec<Line>, ListEnd>
    requires stand { T.Tells → All
        (λ name. Stands (current_tree (T.history tree.old)) (dir.now ++ name ∷ [])) names.now }
    ensures lines { T.Tells → IfOk result (λ lines. lines.items ≡
        filter_map (line_at (T.fields tree.old) switches.now dir.now) names.now) }
    ensures refused { IfErr result (λ end. Refuses end None) }
    ensures looked { T.Tells → OnlyLooked (failed_in failed_call result)
        (T.history tree.old) (T.history tree.new) (T.fields tree.old) (T.fields tree.new)
        (T.before_failed tree.old) (T.before_failed tree.new) }
    ensures faults { T.faults tree.new ≡
        faults_with (failed_in failed_call result) (T.faults tree.old) }
    ensures unchanged { T.changes tree.new ≡ T.changes tree.old }
{
    let mut lines = Vec::new(alloc);
    for name in names {
        if let Some(line) = line_in(alloc, tree, dir, name, switches)? {
            lines.push(line)?;
        }
    }
    Ok(lines)
}

// The line of a name in a directory, where it is listed.
fn line_in<T: Tree>(
    alloc: Global,
    tree: &mut T,
    dir: &Path,
    name: &Name,
    switches: &Switches,
) -> Result<Option<Line>, ListEnd>
    requires stands { T.Tells → Stands (current_tree (T.history tree.old)) (dir.now ++ name.now
        ∷ []) }
    ensures line { T.Tells → IfOk result (λ line. line ≡
        line_at (T.fields tree.old) switches.now dir.now name.now) }
    ensures refused { IfErr result (λ end. Refuses end None) }
    ensures looked { T.Tells → OnlyLooked (failed_in failed_call result)
        (T.history tree.old) (T.history tree.new) (T.fields tree.old) (T.fields tree.new)
        (T.before_failed tree.old) (T.before_failed tree.new) }
    ensures faults { T.faults tree.new ≡
        faults_with (failed_in failed_call result) (T.faults tree.old) }
    ensures unchanged { T.changes tree.new ≡ T.changes tree.old }
{
    if !switches.all && is_hidden(name) {
        return Ok(None);
    }
    let Some(path) = dir.child(name)? else {
        return Ok(None);
    };
    match tree.meta(alloc, &path) {
        Ok(meta) => Ok(Some(line_of(alloc, name, meta)?)),
        Err(LookEnd::Failed) => Err(ListEnd::TreeFault(CallName::Meta)),
        Err(LookEnd::Memory) => Err(ListEnd::Memory),
    }
}

// Whether a name begins with a dot.
fn is_hidden(name: &Name) -> bool
    ensures { result ≡ is_hidden_name name.now }
{
    name.as_str().as_bytes().first() == Some(&b'.')
}

// The line of an entry with these fields.
fn line_of(alloc: Global, name: &Name, meta: Meta) -> Result<Line, ListEnd>
    ensures line { IfOk result (λ line. line ≡ line_of_meta name.now meta) }
    ensures end { IfErr result (λ end. end ≡ ListEnd.Memory) }
{
    Ok(Line {
        kind: meta.kind,
        mode: meta.mode,
        links: meta.links,
        owner: meta.owner,
        group: meta.group,
        size: meta.size,
        minute: minute_of(meta.mtime),
        name: Text::copy_of(alloc, name.as_str())?,
        target: meta.target,
    })
}
