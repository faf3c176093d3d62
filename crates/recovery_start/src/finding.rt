// What stands under names in the staging directory.
ghost use Rattle.std.specs.Prelude.{◌≡◌, IfErr, IfOk, false, map};
ghost use Rattle.std.specs.FinMap.{get};
ghost use Rattle.std.specs.Option.{option_map};
ghost use Rattle.commit_steps.specs.Staging.{staged};
ghost use Rattle.staging_names.specs.Names.{name_read};
ghost use Rattle.tree_core.specs.FileTree.{IsDir, kind_of};
ghost use Rattle.tree_core.specs.Fields.{names_in};
ghost use Rattle.tree_core.specs.History.{current_tree};
ghost use Rattle.tree_core.specs.Looks.{OnlyLooked, failed_in, faults_with};
ghost use Rattle.recovery_start.specs.Start.{failed_start, found_at, has_none, is_held_name, is_told, name_found};

use crate::StartEnd;
use dired_text::{Failed, Name, Path};
use staging_names::{Found, Role, StagedName, read_name};
use std::alloc::Global;
use tree_core::{CallName, Kind, LookEnd, Tree};

// What stands under each of these names; `paths` has their paths.
pub(crate) fn find<T: Tree>(
    alloc: Global,
    tree: &mut T,
    names: &[Name],
    paths: &[Path],
) -> Result<Vec<Found>, StartEnd>
    requires paths { paths.now ≡ map staged names.now }
    ensures found { T.Tells → IfOk result (λ v. v.items ≡
        map (found_at (current_tree (T.history tree.old))) names.now) }
    ensures names { IfOk result (λ v. map name_found v.items ≡ map name_read names.now) }
    ensures looked { T.Tells → OnlyLooked (failed_in failed_start result)
        (T.history tree.old) (T.history tree.new) (T.fields tree.old) (T.fields tree.new)
        (T.before_failed tree.old) (T.before_failed tree.new) }
    ensures faults { T.faults tree.new ≡ faults_with (failed_in failed_start result)
        (T.faults tree.old) }
    ensures unchanged { T.changes tree.new ≡ T.changes tree.old }
    ensures untold { IfErr result (λ e. is_told e ≡ false) }
{
    let mut found = Vec::new(alloc);
    for k in 0..names.len() {
        found.push(find_one(tree, &names[k], &paths[k])?)?;
    }
    Ok(found)
}

// What stands under this name; `path` is its path. Only what was put aside is asked whether it is empty.
fn find_one<T: Tree>(tree: &mut T, name: &Name, path: &Path) -> Result<Found, StartEnd>
    requires path { path.now ≡ staged name.now }
    ensures found { T.Tells → IfOk result (λ f. f ≡
        found_at (current_tree (T.history tree.old)) name.now) }
    ensures name { IfOk result (λ f. f.name ≡ name_read name.now) }
    ensures looked { T.Tells → OnlyLooked (failed_in failed_start result)
        (T.history tree.old) (T.history tree.new) (T.fields tree.old) (T.fields tree.new)
        (T.before_failed tree.old) (T.before_failed tree.new) }
    ensures faults { T.faults tree.new ≡ faults_with (failed_in failed_start result)
        (T.faults tree.old) }
    ensures unchanged { T.changes tree.new ≡ T.changes tree.old }
    ensures untold { IfErr result (λ e. is_told e ≡ false) }
{
    let name = read_name(name.as_str());
    let kind = kind_at(tree, path)?;
    let is_empty = if is_held(name) && kind == Some(Kind::Dir) {
        is_empty_at(tree, path)?
    } else {
        false
    };
    Ok(Found {
        name,
        kind,
        is_empty,
    })
}

// Whether a name is that of something that was put aside.
fn is_held(name: StagedName) -> bool
    ensures { result ≡ is_held_name name }
{
    match name {
        StagedName::Entry(entry) => entry.role == Role::Held,
        StagedName::New | StagedName::Journal(_) | StagedName::Marker(_) | StagedName::Other => {
            false
        }
    }
}

// What stands at a path.
pub(crate) fn kind_at<T: Tree>(tree: &mut T, path: &Path) -> Result<Option<Kind>, StartEnd>
    ensures kind { T.Tells → IfOk result (λ kind. kind ≡
        option_map kind_of (get (current_tree (T.history tree.old)) path.now)) }
    ensures looked { T.Tells → OnlyLooked (failed_in failed_start result)
        (T.history tree.old) (T.history tree.new) (T.fields tree.old) (T.fields tree.new)
        (T.before_failed tree.old) (T.before_failed tree.new) }
    ensures faults { T.faults tree.new ≡ faults_with (failed_in failed_start result)
        (T.faults tree.old) }
    ensures unchanged { T.changes tree.new ≡ T.changes tree.old }
    ensures untold { IfErr result (λ e. is_told e ≡ false) }
{
    match tree.kind(path) {
        Ok(kind) => Ok(kind),
        Err(Failed) => Err(StartEnd::TreeFault(CallName::Kind)),
    }
}

// Whether nothing stands in a directory.
fn is_empty_at<T: Tree>(tree: &mut T, path: &Path) -> Result<bool, StartEnd>
    requires dir { T.Tells → IsDir (current_tree (T.history tree.old)) path.now }
    ensures empty { T.Tells → IfOk result (λ empty. empty ≡
        has_none (names_in (current_tree (T.history tree.old)) path.now)) }
    ensures looked { T.Tells → OnlyLooked (failed_in failed_start result)
        (T.history tree.old) (T.history tree.new) (T.fields tree.old) (T.fields tree.new)
        (T.before_failed tree.old) (T.before_failed tree.new) }
    ensures faults { T.faults tree.new ≡ faults_with (failed_in failed_start result)
        (T.faults tree.old) }
    ensures unchanged { T.changes tree.new ≡ T.changes tree.old }
    ensures untold { IfErr result (λ e. is_told e ≡ false) }
{
    match tree.is_empty(path) {
        Ok(empty) => Ok(empty),
        Err(Failed) => Err(StartEnd::TreeFault(CallName::IsEmpty)),
    }
}

// The names in a directory.
pub(crate) fn names_at<T: Tree>(
    alloc: Global,
    tree: &mut T,
    path: &Path,
) -> Result<Vec<Name>, StartEnd>
    requires dir { T.Tells → IsDir (current_tree (T.history tree.old)) path.now }
    ensures names { T.Tells → IfOk result (λ names. names.items ≡
        names_in (current_tree (T.history tree.old)) path.now) }
    ensures looked { T.Tells → OnlyLooked (failed_in failed_start result)
        (T.history tree.old) (T.history tree.new) (T.fields tree.old) (T.fields tree.new)
        (T.before_failed tree.old) (T.before_failed tree.new) }
    ensures faults { T.faults tree.new ≡ faults_with (failed_in failed_start result)
        (T.faults tree.old) }
    ensures unchanged { T.changes tree.new ≡ T.changes tree.old }
    ensures untold { IfErr result (λ e. is_told e ≡ false) }
{
    match tree.names(alloc, path) {
        Ok(names) => Ok(names),
        Err(LookEnd::Failed) => Err(StartEnd::TreeFault(CallName::Names)),
        Err(LookEnd::Memory) => Err(StartEnd::Memory),
    }
}
