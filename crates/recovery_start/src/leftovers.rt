// What an interrupted commit left in a tree.
ghost use Rattle.std.specs.Prelude.{◌≡◌, ◌<◌, Some, None, IfErr, IfOk, IfSome, MatchResult, false, length, map};
ghost use Rattle.std.specs.List.{slice_get, AllByRecursion};
ghost use Rattle.commit_steps.specs.Staging.{staged, staging as staging_directory, staging_name};
ghost use Rattle.staging_names.specs.declared.staged_name.Journal.{Journal as a_journal};
ghost use Rattle.staging_names.specs.Names.{journal_name as name_of_journal, name_read};
ghost use Rattle.step_trees.specs.Steps.{IsStep};
ghost use Rattle.tree_core.specs.Fields.{names_in};
ghost use Rattle.tree_core.specs.FileTree.{IsDir, IsFile};
ghost use Rattle.tree_core.specs.History.{current_tree};
ghost use Rattle.tree_core.specs.Looks.{OnlyLooked, failed_in, faults_with};
ghost use Rattle.recovery_start.specs.Start.{HasSteps, IsEnd, IsSortedOut, IsStanding, IsStart, IsJournalEnd, IsForeignEnd, failed_start, found_in, is_told, name_found};

use crate::StartEnd;
use crate::finding::{find, kind_at, names_at};
use crate::journal::read_steps;
use crate::paths::{STAGING, journal_path, staged_paths, staging_path};
use commit_steps::Steps;
use dired_text::{Memory, Name, Path, Text};
use staging_names::{EntryName, Found, Journal, Standing, beyond, entries_of, sort_out};
use std::alloc::Global;
use tree_core::{Kind, Tree};

/// What an interrupted commit left.
#[derive(Drop)]
pub struct Leftovers {
    /// The names in the staging directory, in the order of their bytes.
    pub names: Vec<Name>,
    /// The path of each.
    pub paths: Vec<Path>,
    /// What stands under each.
    pub found: Vec<Found>,
    /// The journal and the marker among them.
    pub standing: Standing,
    /// The steps of the journal; none where no journal stands.
    pub steps: Steps,
    /// The entries that stand or that a step names, each once, in their order.
    pub entries: Vec<EntryName>,
}

// What stands in the staging directory.
#[derive(Drop)]
struct Scan {
    names: Vec<Name>,
    paths: Vec<Path>,
    found: Vec<Found>,
}

/// What stands where a commit was stopped; None where nothing stands at the staging directory. Takes all memory that it needs, and
/// changes nothing.
///
/// # Errors
/// `Foreign` with the path of the staging directory where that is no directory, with a name in it where [`sort_out`] tells its place, or
/// with the marker's where the journal could be read and the marker counts more steps than it has. `BadJournal` where no name is
/// foreign and the journal can't be read. `Memory` where an allocation was refused. `TreeFault` where a look failed.
pub fn find_leftovers<T: Tree>(alloc: Global, tree: &mut T) -> Result<Option<Leftovers>, StartEnd>
    ensures found { T.Tells → IsStart (current_tree (T.history tree.old)) result }
    ensures sorted_out { IfOk result (λ found. IfSome found IsSortedOut) }
    ensures looked { T.Tells → OnlyLooked (failed_in failed_start result)
        (T.history tree.old) (T.history tree.new) (T.fields tree.old) (T.fields tree.new)
        (T.before_failed tree.old) (T.before_failed tree.new) }
    ensures faults { T.faults tree.new ≡ faults_with (failed_in failed_start result)
        (T.faults tree.old) }
    ensures unchanged { T.changes tree.new ≡ T.changes tree.old }
{
    let staging = staging_path(alloc)?;
    match kind_at(tree, &staging)? {
        None => Ok(None),
        Some(Kind::Dir) => Ok(Some(leftovers_in(alloc, tree, &staging)?)),
        Some(Kind::File) => Err(no_directory(alloc)),
        Some(Kind::Link) => Err(no_directory(alloc)),
    }
}

// What stands at the staging directory's path is foreign.
#[tactic(auto, unfolding(commit_steps::specs::Staging::staging_name))]
fn no_directory(alloc: Global) -> StartEnd
    ensures foreign { IsForeignEnd (Some staging_name) result }
    ensures no_fault { failed_start result ≡ None }
{
    match Text::copy_of(alloc, STAGING) {
        Ok(name) => StartEnd::Foreign(name),
        Err(Memory) => StartEnd::Memory,
    }
}

// What is left in the staging directory.
fn leftovers_in<T: Tree>(alloc: Global, tree: &mut T, staging: &Path) -> Result<Leftovers, StartEnd>
    requires staging { staging.now ≡ staging_directory }
    requires dir { T.Tells → IsDir (current_tree (T.history tree.old)) staging.now }
    ensures found { T.Tells → MatchResult result (IsStanding (current_tree (T.history tree.old)))
        (IsEnd (current_tree (T.history tree.old))) }
    ensures sorted_out { IfOk result IsSortedOut }
    ensures looked { T.Tells → OnlyLooked (failed_in failed_start result)
        (T.history tree.old) (T.history tree.new) (T.fields tree.old) (T.fields tree.new)
        (T.before_failed tree.old) (T.before_failed tree.new) }
    ensures faults { T.faults tree.new ≡ faults_with (failed_in failed_start result)
        (T.faults tree.old) }
    ensures unchanged { T.changes tree.new ≡ T.changes tree.old }
{
    let scan = list_staging(alloc, tree, staging)?;
    let standing = match sort_out(&scan.found) {
        Ok(standing) => standing,
        Err(place) => return Err(foreign(alloc, &scan.names, place)),
    };
    let steps = steps_of(alloc, tree, standing.journal)?;
    if let Some(place) = beyond(&scan.found, steps.as_slice().len()) {
        return Err(foreign(alloc, &scan.names, place));
    }
    let entries = entries_of(alloc, &scan.found, steps.as_slice())?;
    Ok(Leftovers {
        names: scan.names,
        paths: scan.paths,
        found: scan.found,
        standing,
        steps,
        entries,
    })
}

// What stands in the staging directory.
fn list_staging<T: Tree>(alloc: Global, tree: &mut T, staging: &Path) -> Result<Scan, StartEnd>
    requires staging { staging.now ≡ staging_directory }
    requires dir { T.Tells → IsDir (current_tree (T.history tree.old)) staging.now }
    ensures names { T.Tells → IfOk result (λ s. s.names.items ≡
        names_in (current_tree (T.history tree.old)) staging_directory) }
    ensures found { T.Tells → IfOk result (λ s. s.found.items ≡
        found_in (current_tree (T.history tree.old))) }
    ensures untold { IfErr result (λ e. is_told e ≡ false) }
    ensures named { IfOk result (λ s. map name_found s.found.items ≡ map name_read s.names.items) }
    ensures paths { IfOk result (λ s. s.paths.items ≡ map staged s.names.items) }
    ensures looked { T.Tells → OnlyLooked (failed_in failed_start result)
        (T.history tree.old) (T.history tree.new) (T.fields tree.old) (T.fields tree.new)
        (T.before_failed tree.old) (T.before_failed tree.new) }
    ensures faults { T.faults tree.new ≡ faults_with (failed_in failed_start result)
        (T.faults tree.old) }
    ensures unchanged { T.changes tree.new ≡ T.changes tree.old }
{
    let names = names_at(alloc, tree, staging)?;
    let paths = staged_paths(alloc, &names)?;
    let found = find(alloc, tree, &names, &paths)?;
    Ok(Scan {
        names,
        paths,
        found,
    })
}

// The steps of the journal that stands; none without one.
fn steps_of<T: Tree>(
    alloc: Global,
    tree: &mut T,
    journal: Option<Journal>,
) -> Result<Steps, StartEnd>
    requires file { T.Tells → (j : a_journal) → journal ≡ Some j →
        IsFile (current_tree (T.history tree.old)) (staged (name_of_journal j)) }
    ensures read { T.Tells → MatchResult result
        (HasSteps (current_tree (T.history tree.old)) journal)
        (IsJournalEnd (current_tree (T.history tree.old)) journal) }
    ensures steps { IfOk result (λ steps. AllByRecursion IsStep steps) }
    ensures looked { T.Tells → OnlyLooked (failed_in failed_start result)
        (T.history tree.old) (T.history tree.new) (T.fields tree.old) (T.fields tree.new)
        (T.before_failed tree.old) (T.before_failed tree.new) }
    ensures faults { T.faults tree.new ≡ faults_with (failed_in failed_start result)
        (T.faults tree.old) }
    ensures unchanged { T.changes tree.new ≡ T.changes tree.old }
{
    match journal {
        None => Ok(Steps::from_vec(Vec::new(alloc))),
        Some(journal) => read_steps(alloc, tree, &journal_path(alloc, journal)?),
    }
}

// The name at this place is foreign.
fn foreign(alloc: Global, names: &[Name], place: usize) -> StartEnd
    requires within { place < length names.now }
    ensures foreign { IsForeignEnd (slice_get names.now place) result }
    ensures no_fault { failed_start result ≡ None }
{
    match Text::copy_of(alloc, names[place].as_str()) {
        Ok(name) => StartEnd::Foreign(name),
        Err(Memory) => StartEnd::Memory,
    }
}
