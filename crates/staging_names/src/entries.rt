// The entries that stand in the staging directory or that a step names.
ghost use Rattle.std.specs.Prelude.{◌≡◌, ◌++◌, IfOk, OnOk};
ghost use Rattle.staging_names.specs.Entries.{AreEntries, entries_found as entries_found_in, entries_named as entries_named_by, entries_of_step, entry_at as entry_at_path, entry_in as entry_in_name, listed};

use crate::{EntryName, Found, StagedName, read_name};
use commit_steps::Step;
use dired_text::{Memory, Path};
use std::alloc::Global;

// The staging directory.
const STAGING: &str = ".wdired-commit";

/// The entries in what was found, and those that a path of a step names, each once, in their order.
pub fn entries_of(alloc: Global, found: &[Found], steps: &[Step]) -> Result<Vec<EntryName>, Memory>
    ensures { IfOk result (λ es. AreEntries
        (entries_found_in found.now ++ entries_named_by steps.now) es.items) }
{
    let mut entries = entries_found(alloc, found)?;
    push_named(&mut entries, steps)?;
    entries.sort_unstable();
    entries.dedup();
    Ok(entries)
}

// The entries in what was found.
fn entries_found(alloc: Global, found: &[Found]) -> Result<Vec<EntryName>, Memory>
    ensures { IfOk result (λ v. v.items ≡ entries_found_in found.now) }
{
    let mut entries = Vec::new(alloc);
    for one in found {
        if let Some(entry) = entry_in(one.name) {
            entries.push(entry)?;
        }
    }
    Ok(entries)
}

// Adds the entries that steps name.
fn push_named(entries: &mut Vec<EntryName>, steps: &[Step]) -> Result<(), Memory>
    ensures { OnOk result (entries.new.items ≡ entries.old.items ++ entries_named_by steps.now) }
{
    for step in steps {
        push_of_step(entries, step)?;
    }
    Ok(())
}

// Adds the entries that a step names. Only a rename meets the staging directory.
fn push_of_step(entries: &mut Vec<EntryName>, step: &Step) -> Result<(), Memory>
    ensures { OnOk result (entries.new.items ≡ entries.old.items ++ entries_of_step step.now) }
{
    if let Step::Rename(from, to) = step {
        push_at(entries, from)?;
        push_at(entries, to)?;
    }
    Ok(())
}

// Adds the entry that a path names, if it names one.
fn push_at(entries: &mut Vec<EntryName>, path: &Path) -> Result<(), Memory>
    ensures { OnOk result (entries.new.items ≡ entries.old.items ++
        listed (entry_at_path path.now)) }
{
    if let Some(entry) = entry_at(path) {
        entries.push(entry)?;
    }
    Ok(())
}

// The entry that a path names: it is in the staging directory and has an entry's name.
#[tactic(auto, unfolding(commit_steps::specs::Staging::staging_name))]
fn entry_at(path: &Path) -> Option<EntryName>
    ensures { result ≡ entry_at_path path.now }
{
    match path.names() {
        [first, name] if first.as_str() == STAGING => entry_in(read_name(name.as_str())),
        _ => None,
    }
}

// The entry that a name stands for.
fn entry_in(name: StagedName) -> Option<EntryName>
    ensures { result ≡ entry_in_name name }
{
    match name {
        StagedName::Entry(entry) => Some(entry),
        StagedName::New | StagedName::Journal(_) | StagedName::Marker(_) | StagedName::Other =>
            None,
    }
}
