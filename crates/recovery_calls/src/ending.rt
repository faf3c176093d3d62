// The two ends of a recovery behind the steps: the seal with what is behind it, and its counterpart on the way back.
ghost use Rattle.std.specs.Prelude.{◌≡◌, ◌≢◌, [], IfOk, Some, length};
ghost use Rattle.std.specs.FinMap.{get};
ghost use Rattle.std.specs.List.{AllByRecursion, list_any};
ghost use Rattle.std.specs.Option.{option_map};
ghost use Rattle.commit_calls.specs.Parts.{close_up_calls};
ghost use Rattle.commit_calls.specs.Paths.{ArePaths};
ghost use Rattle.commit_states.specs.Calls.{removals_by};
ghost use Rattle.commit_steps.specs.Staging.{staged};
ghost use Rattle.recovery_calls.specs.Endings.{MayEnd, barred_at as barred_at_of, bars, ended, ended_calls, goes, gone_in, gone_one, last_marker, last_name, removed_at};
ghost use Rattle.recovery_calls.specs.Underway.{AreOnce};
ghost use Rattle.recovery_calls.specs.Works.{HasPath, IsMarked, IsWork, entries_of, names_of};
ghost use Rattle.recovery_courses.specs.Course.{Follows};
ghost use Rattle.step_looks.specs.Looks.{is_none_of};
ghost use Rattle.step_looks.specs.Undoing.{RanOrLooked};
ghost use Rattle.tree_core.specs.Fields.{names_in};
ghost use Rattle.tree_core.specs.FileTree.{IsDir, IsEmptyAt, kind_of};
ghost use Rattle.tree_core.specs.Faults.{NamesFault};
ghost use Rattle.tree_core.specs.History.{current_tree};
ghost use Rattle.tree_core.specs.Looks.{OnlyLooked, failed_in};
ghost use Rattle.tree_core.specs.Runs.{CanAll, Ran};

use crate::work::{Entry, Work};
use commit_calls::{StagingPaths, remove, remove_dir, rename_and_sync, sync};
use dired_text::{Failed, Path};
use staging_names::Role;
use tree_core::{CallName, Kind, Tree};

// How the journal `plan` ends.
#[derive(Clone, Copy, Debug, PartialEq, Eq)]
pub(crate) enum Ending {
    // All steps are done.
    Sealed,
    // All steps are undone.
    Undone,
}

impl Ending {
    // Whether entries of this role are removed behind it.
    fn removes(self, role: Role) -> bool
        ensures { result ≡ goes self role }
    {
        match self {
            Ending::Sealed => role == Role::Held,
            Ending::Undone => role == Role::Fresh,
        }
    }

    // The number that is told where something bars it, by the number of steps.
    fn barred_at(self, steps: usize) -> usize
        ensures { result ≡ barred_at_of self steps }
    {
        match self {
            Ending::Sealed => steps,
            Ending::Undone => 0,
        }
    }

    // The path of the journal under its last name.
    fn journal(self, paths: &StagingPaths) -> &Path
        requires { ArePaths paths.now }
        ensures { result.now ≡ staged (last_name self) }
    {
        match self {
            Ending::Sealed => &paths.sealed,
            Ending::Undone => &paths.undone,
        }
    }
}

// Gives the journal its last name and removes all that is left in the staging directory, and that, unless something stands there that
// no commit leaves. Then the number is told that stands for it.
pub(crate) fn end<T: Tree>(
    tree: &mut T,
    work: &Work,
    ending: Ending,
    marker: &Path,
) -> Result<Option<usize>, CallName>
    requires work { IsWork work.now }
    requires marker { marker.now ≡ staged (last_marker ending (length work.now.steps)) }
    requires marked { T.Tells → IsMarked (last_marker ending (length work.now.steps)) work.now
        (T.history tree.old) }
    ensures follows { T.Tells → Follows (ended ending (length work.now.steps) (entries_of work.now)
        (T.history tree.old))
        (T.history tree.old) (T.history tree.new)
        (T.before_failed tree.old) (T.before_failed tree.new) result }
    ensures cause { NamesFault (T.faults tree.old) (T.faults tree.new) result }
{
    if is_barred(tree, work.entries(), ending)? {
        return Ok(Some(ending.barred_at(work.steps.as_slice().len())));
    }
    end_unbarred(tree, work, ending, marker)?;
    Ok(None)
}

// Gives the journal its last name and removes all that is left in the staging directory, and that.
fn end_unbarred<T: Tree>(
    tree: &mut T,
    work: &Work,
    ending: Ending,
    marker: &Path,
) -> Result<(), CallName>
    requires work { IsWork work.now }
    requires marker { marker.now ≡ staged (last_marker ending (length work.now.steps)) }
    requires marked { T.Tells → IsMarked (last_marker ending (length work.now.steps)) work.now
        (T.history tree.old) }
    requires may { T.Tells → AllByRecursion (MayEnd ending (current_tree (T.history tree.old)))
        (entries_of work.now) }
    ensures ran { T.Tells → RanOrLooked (ended_calls ending (length work.now.steps)
        (entries_of work.now) (current_tree (T.history tree.old)))
        (T.history tree.old) (T.history tree.new)
        (T.before_failed tree.old) (T.before_failed tree.new) result }
    ensures cause { NamesFault (T.faults tree.old) (T.faults tree.new) result }
{
    let journal = ending.journal(&work.paths);
    rename_and_sync(tree, &work.paths.plan, journal)?;
    remove_gone(tree, work.entries(), ending)?;
    close_up(tree, marker, journal, &work.paths.staging)
}

// Whether something stands that bars this end.
fn is_barred<T: Tree>(tree: &mut T, entries: &[Entry], ending: Ending) -> Result<bool, CallName>
    requires paths { AllByRecursion HasPath entries.now }
    ensures barred { T.Tells → IfOk result (λ barred. barred ≡
        list_any (bars ending (current_tree (T.history tree.old))) (names_of entries.now)) }
    ensures looked { T.Tells → OnlyLooked (failed_in (λ call. Some call) result)
        (T.history tree.old) (T.history tree.new) (T.fields tree.old) (T.fields tree.new)
        (T.before_failed tree.old) (T.before_failed tree.new) }
    ensures cause { NamesFault (T.faults tree.old) (T.faults tree.new) result }
{
    for entry in entries {
        if is_bar(tree, entry, ending)? {
            return Ok(true);
        }
    }
    Ok(false)
}

// Whether this entry bars it: one that is to be removed behind it must be such as a commit leaves, and no other may stand.
fn is_bar<T: Tree>(tree: &mut T, entry: &Entry, ending: Ending) -> Result<bool, CallName>
    requires path { HasPath entry.now }
    ensures bars { T.Tells → IfOk result (λ bar. bar ≡
        bars ending (current_tree (T.history tree.old)) entry.now.name) }
    ensures looked { T.Tells → OnlyLooked (failed_in (λ call. Some call) result)
        (T.history tree.old) (T.history tree.new) (T.fields tree.old) (T.fields tree.new)
        (T.before_failed tree.old) (T.before_failed tree.new) }
    ensures cause { NamesFault (T.faults tree.old) (T.faults tree.new) result }
{
    let kind = kind_at(tree, &entry.path)?;
    if !ending.removes(entry.name.role) {
        return Ok(kind.is_some());
    }
    match (ending, kind) {
        (Ending::Sealed, Some(Kind::Dir)) => Ok(!is_empty(tree, &entry.path)?),
        (Ending::Undone, Some(Kind::Dir)) => Ok(true),
        _ => Ok(false),
    }
}

// What stands at a path.
fn kind_at<T: Tree>(tree: &mut T, path: &Path) -> Result<Option<Kind>, CallName>
    ensures kind { T.Tells → IfOk result (λ kind. kind ≡
        option_map kind_of (get (current_tree (T.history tree.old)) path.now)) }
    ensures looked { T.Tells → OnlyLooked (failed_in (λ call. Some call) result)
        (T.history tree.old) (T.history tree.new) (T.fields tree.old) (T.fields tree.new)
        (T.before_failed tree.old) (T.before_failed tree.new) }
    ensures cause { NamesFault (T.faults tree.old) (T.faults tree.new) result }
{
    match tree.kind(path) {
        Ok(kind) => Ok(kind),
        Err(Failed) => Err(CallName::Kind),
    }
}

// Whether nothing stands in a directory.
fn is_empty<T: Tree>(tree: &mut T, path: &Path) -> Result<bool, CallName>
    requires dir { T.Tells → IsDir (current_tree (T.history tree.old)) path.now }
    ensures empty { T.Tells → IfOk result (λ empty. empty ≡
        is_none_of (names_in (current_tree (T.history tree.old)) path.now)) }
    ensures looked { T.Tells → OnlyLooked (failed_in (λ call. Some call) result)
        (T.history tree.old) (T.history tree.new) (T.fields tree.old) (T.fields tree.new)
        (T.before_failed tree.old) (T.before_failed tree.new) }
    ensures cause { NamesFault (T.faults tree.old) (T.faults tree.new) result }
{
    match tree.is_empty(path) {
        Ok(empty) => Ok(empty),
        Err(Failed) => Err(CallName::IsEmpty),
    }
}

// Removes the entries that are removed behind this end.
fn remove_gone<T: Tree>(tree: &mut T, entries: &[Entry], ending: Ending) -> Result<(), CallName>
    requires paths { AllByRecursion HasPath entries.now }
    requires once { AreOnce (names_of entries.now) }
    requires may { T.Tells → AllByRecursion (MayEnd ending (current_tree (T.history tree.old)))
        (names_of entries.now) }
    ensures ran { T.Tells → RanOrLooked (removals_by
        (gone_in ending (current_tree (T.history tree.old)) (names_of entries.now)))
        (T.history tree.old) (T.history tree.new)
        (T.before_failed tree.old) (T.before_failed tree.new) result }
    ensures cause { NamesFault (T.faults tree.old) (T.faults tree.new) result }
{
    for entry in entries {
        remove_if_gone(tree, entry, ending)?;
    }
    Ok(())
}

// Removes this entry, if it is one that is removed behind this end, and stands.
fn remove_if_gone<T: Tree>(tree: &mut T, entry: &Entry, ending: Ending) -> Result<(), CallName>
    requires path { HasPath entry.now }
    requires may { T.Tells → MayEnd ending (current_tree (T.history tree.old)) entry.now.name }
    ensures ran { T.Tells → RanOrLooked (removals_by
        (gone_one ending (current_tree (T.history tree.old)) entry.now.name))
        (T.history tree.old) (T.history tree.new)
        (T.before_failed tree.old) (T.before_failed tree.new) result }
    ensures cause { NamesFault (T.faults tree.old) (T.faults tree.new) result }
{
    if ending.removes(entry.name.role) {
        remove_at(tree, &entry.path)
    } else {
        Ok(())
    }
}

// Removes what stands at a path.
fn remove_at<T: Tree>(tree: &mut T, path: &Path) -> Result<(), CallName>
    requires inside { path.now ≢ [] }
    requires empty { T.Tells → IsDir (current_tree (T.history tree.old)) path.now →
        IsEmptyAt (current_tree (T.history tree.old)) path.now }
    ensures ran { T.Tells → RanOrLooked (removed_at path.now (current_tree (T.history tree.old)))
        (T.history tree.old) (T.history tree.new)
        (T.before_failed tree.old) (T.before_failed tree.new) result }
    ensures cause { NamesFault (T.faults tree.old) (T.faults tree.new) result }
{
    match kind_at(tree, path)? {
        None => Ok(()),
        Some(Kind::Dir) => remove_dir(tree, path),
        Some(_) => remove(tree, path),
    }
}

// Removes the marker, and when that is durable the journal and the staging directory.
fn close_up<T: Tree>(
    tree: &mut T,
    marker: &Path,
    journal: &Path,
    directory: &Path,
) -> Result<(), CallName>
    requires can { T.Tells → CanAll (close_up_calls marker.now journal.now directory.now)
        (T.history tree.old) }
    ensures ran { T.Tells → Ran (close_up_calls marker.now journal.now directory.now)
        (T.history tree.old) (T.history tree.new)
        (T.before_failed tree.old) (T.before_failed tree.new) result }
    ensures cause { NamesFault (T.faults tree.old) (T.faults tree.new) result }
{
    remove(tree, marker)?;
    sync(tree)?;
    remove(tree, journal)?;
    remove_dir(tree, directory)?;
    sync(tree)
}
