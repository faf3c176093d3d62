// What is looked at of a path.
ghost use Rattle.std.specs.Prelude.{◌≡◌, ◌≢◌, ◌<◌, ◌≤◌, ◌^◌, [], IfOk, length};
ghost use Rattle.dired_text.specs.Paths.{AreNames, path_bytes, max_path_bytes};
ghost use Rattle.tree_core.specs.FileTree.{IsDir, Stands};
ghost use Rattle.tree_core.specs.Fields.{IsMeta, RiseStrictly, names_in};
ghost use Rattle.tree_core.specs.History.{current_tree};
ghost use Rattle.tree_core.specs.Looks.{OnlyLooked, failed_in, faults_with};
ghost use Rattle.find_words.specs.Expressions.{value_of};
ghost use Rattle.find_listing.specs.Finds.{failed_call, last_name, line_of as line_of_path, IsLineOf};

use crate::FindEnd;
use dired_text::{Memory, Name, Path};
use find_words::Predicate;
use listing_text::{Line, minute_of};
use std::alloc::Global;
use tree_core::{CallName, LookEnd, Meta, Tree};

// The fields of what stands at a path.
pub(crate) fn meta_at<T: Tree>(alloc: Global, tree: &mut T, path: &Path) -> Result<Meta, FindEnd>
    requires stands { T.Tells → Stands (current_tree (T.history tree.old)) path.now }
    ensures meta { T.Tells → IfOk result (λ meta. meta ≡ T.fields tree.old path.now) }
    ensures lawful { IfOk result (λ meta. IsMeta meta) }
    ensures looked { T.Tells → OnlyLooked (failed_in failed_call result)
        (T.history tree.old) (T.history tree.new) (T.fields tree.old) (T.fields tree.new)
        (T.before_failed tree.old) (T.before_failed tree.new) }
    ensures faults { T.faults tree.new ≡
        faults_with (failed_in failed_call result) (T.faults tree.old) }
    ensures unchanged { T.changes tree.new ≡ T.changes tree.old }
{
    match tree.meta(alloc, path) {
        Ok(meta) => Ok(meta),
        Err(LookEnd::Failed) => Err(FindEnd::TreeFault(CallName::Meta)),
        Err(LookEnd::Memory) => Err(FindEnd::Memory),
    }
}

// The names in a directory, in the order of their bytes.
pub(crate) fn names_in_dir<T: Tree>(
    alloc: Global,
    tree: &mut T,
    dir: &Path,
) -> Result<Vec<Name>, FindEnd>
    requires dir { T.Tells → IsDir (current_tree (T.history tree.old)) dir.now }
    ensures names { T.Tells → IfOk result (λ names. names.items ≡
        names_in (current_tree (T.history tree.old)) dir.now) }
    ensures rise { IfOk result (λ names. RiseStrictly names.items) }
    ensures few { IfOk result (λ names. length names.items < 2 ^ 64) }
    ensures looked { T.Tells → OnlyLooked (failed_in failed_call result)
        (T.history tree.old) (T.history tree.new) (T.fields tree.old) (T.fields tree.new)
        (T.before_failed tree.old) (T.before_failed tree.new) }
    ensures faults { T.faults tree.new ≡
        faults_with (failed_in failed_call result) (T.faults tree.old) }
    ensures unchanged { T.changes tree.new ≡ T.changes tree.old }
{
    match tree.names(alloc, dir) {
        Ok(names) => Ok(names),
        Err(LookEnd::Failed) => Err(FindEnd::TreeFault(CallName::Names)),
        Err(LookEnd::Memory) => Err(FindEnd::Memory),
    }
}

// Whether what stands at a path of these names, which isn't the root, meets a predicate.
pub(crate) fn is_met(
    alloc: Global,
    predicate: &Predicate,
    names: &[Name],
    meta: &Meta,
    now: i64,
) -> Result<bool, Memory>
    requires { names.now ≢ [] }
    ensures { IfOk result (λ b. b ≡ value_of now (last_name names.now) meta.now predicate.now) }
{
    predicate.is_met_by(alloc, names[names.len() - 1].as_str(), meta, now)
}

// The line of a path with these fields.
pub(crate) fn line_of(path: &Path, meta: Meta) -> Result<Line, Memory>
    requires some { path.now ≢ [] }
    requires names { AreNames path.now }
    requires short { path_bytes path.now ≤ max_path_bytes }
    requires lawful { IsMeta meta }
    ensures line { IfOk result (λ line. line ≡ line_of_path path.now meta) }
    ensures lawful { IfOk result (λ line. IsLineOf path.now line) }
{
    Ok(Line {
        kind: meta.kind,
        mode: meta.mode,
        links: meta.links,
        owner: meta.owner,
        group: meta.group,
        size: meta.size,
        minute: minute_of(meta.mtime),
        name: path.text()?,
        target: meta.target,
    })
}
