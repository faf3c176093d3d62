// The paths of the staging directory and of what stands in it.
ghost use Rattle.std.specs.Prelude.{◌≡◌, IfOk, IsTrue, map};
ghost use Rattle.dired_text.specs.Paths.{is_name};
ghost use Rattle.staging_names.specs.Names.{journal_name};
ghost use Rattle.commit_steps.specs.Staging.{staged, staging};

use dired_text::{Memory, Name, Path};
use staging_names::Journal;
use std::alloc::Global;

/// The staging directory.
pub(crate) const STAGING: &str = ".wdired-commit";

// The path of the staging directory.
#[tactic(auto, unfolding(commit_steps::specs::Staging::staging_name))]
pub(crate) fn staging_path(alloc: Global) -> Result<Path, Memory>
    ensures { IfOk result (λ p. p ≡ staging) }
{
    let names = [known_name(alloc, STAGING)?];
    match Path::join(alloc, &names)? {
        Some(path) => Ok(path),
        None => unreachable!(),
    }
}

// The path of this journal.
#[tactic(auto, unfolding(commit_steps::specs::Staging::plan, commit_steps::specs::Staging::sealed, commit_steps::specs::Staging::undone))]
pub(crate) fn journal_path(alloc: Global, journal: Journal) -> Result<Path, Memory>
    ensures { IfOk result (λ p. p ≡ staged (journal_name journal)) }
{
    match journal {
        Journal::Plan => staged_path(alloc, "plan"),
        Journal::Done => staged_path(alloc, "done"),
        Journal::Undone => staged_path(alloc, "undone"),
    }
}

// The paths of these names in the staging directory.
pub(crate) fn staged_paths(alloc: Global, names: &[Name]) -> Result<Vec<Path>, Memory>
    ensures { IfOk result (λ ps. ps.items ≡ map staged names.now) }
{
    let mut paths = Vec::new(alloc);
    for name in names {
        paths.push(staged_path(alloc, name.as_str())?)?;
    }
    Ok(paths)
}

// The path of this name in the staging directory.
#[tactic(auto, unfolding(commit_steps::specs::Staging::staging_name))]
fn staged_path(alloc: Global, name: &str) -> Result<Path, Memory>
    requires name { IsTrue (is_name name.now) }
    ensures { IfOk result (λ p. p ≡ staged name.now) }
{
    let names = [known_name(alloc, STAGING)?, known_name(alloc, name)?];
    match Path::join(alloc, &names)? {
        Some(path) => Ok(path),
        None => unreachable!(),
    }
}

// The name that a text is.
fn known_name(alloc: Global, text: &str) -> Result<Name, Memory>
    requires name { IsTrue (is_name text.now) }
    ensures { IfOk result (λ n. n ≡ text.now) }
{
    match Name::new(alloc, text)? {
        Some(name) => Ok(name),
        None => unreachable!(),
    }
}
