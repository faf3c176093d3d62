// The entries of the staging directory, with their paths.
ghost use Rattle.std.specs.Prelude.{◌≡◌, IfOk, IsTrue};
ghost use Rattle.std.specs.List.{AllByRecursion};
ghost use Rattle.dired_text.specs.Paths.{is_name};
ghost use Rattle.recovery_calls.specs.Works.{HasPath, letter_of, names_of};
ghost use Rattle.commit_steps.specs.Staging.{staged};

use crate::work::Entry;
use dired_text::{Memory, Name, Path};
use staging_names::{EntryName, Role};
use std::alloc::Global;

const STAGING: &str = ".wdired-commit";

// The entries of these names.
pub(crate) fn entries_of(alloc: Global, names: &[EntryName]) -> Result<Vec<Entry>, Memory>
    ensures names { IfOk result (λ v. names_of v.items ≡ names.now) }
    ensures paths { IfOk result (λ v. AllByRecursion HasPath v.items) }
{
    let mut entries = Vec::new(alloc);
    for name in names {
        entries.push(entry_of(alloc, *name)?)?;
    }
    Ok(entries)
}

// The entry of a name.
fn entry_of(alloc: Global, name: EntryName) -> Result<Entry, Memory>
    ensures name { IfOk result (λ e. e.name ≡ name) }
    ensures path { IfOk result (λ e. HasPath e) }
{
    let letter = letter(name.role);
    let number = name.number;
    let text = format!(in alloc; "{letter}{number}")?;
    let path = staged_path(alloc, &text)?;
    Ok(Entry { name, path })
}

// The letter before the number in its name.
fn letter(role: Role) -> &'static str
    ensures { result.now ≡ letter_of role }
{
    match role {
        Role::Fresh => "f",
        Role::Held => "h",
        Role::Temporary => "t",
    }
}

// The path of this name in the staging directory.
#[tactic(auto, unfolding(commit_steps::specs::Staging::staging_name))]
fn staged_path(alloc: Global, name: &str) -> Result<Path, Memory>
    requires name { IsTrue (is_name name.now) }
    ensures { IfOk result (λ p. p ≡ staged name.now) }
{
    let names = [known_name(alloc, STAGING)?, known_name(alloc, name)?];
    match Path::join(alloc, &names)? {
        Some(path) => Ok(path),
        None => unreachable!(),
    }
}

// The name that a text is.
fn known_name(alloc: Global, text: &str) -> Result<Name, Memory>
    requires name { IsTrue (is_name text.now) }
    ensures { IfOk result (λ n. n ≡ text.now) }
{
    match Name::new(alloc, text)? {
        Some(name) => Ok(name),
        None => unreachable!(),
    }
}
