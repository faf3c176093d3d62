// The paths of entries in the staging directory.
ghost use Rattle.std.specs.Prelude.{◌≡◌, IfOk, IsTrue};
ghost use Rattle.dired_text.specs.Paths.{is_name};
ghost use Rattle.commit_steps.specs.Staging.{numbered, staged};
ghost use Rattle.commit_plan.specs.Stands.{letter_of};

use dired_text::{Memory, Name, Path};
use std::alloc::Global;

/// What an entry of the staging directory is: one that waits for its new name, one that was put aside, or one that is new.
#[derive(Clone, Copy, Drop)]
pub enum Entry {
    Temporary,
    Held,
    Fresh,
}

impl Entry {
    fn letter(self) -> &'static str
        ensures { result.now ≡ letter_of self }
    {
        match self {
            Entry::Temporary => "t",
            Entry::Held => "h",
            Entry::Fresh => "f",
        }
    }
}

/// The path of the entry of this number.
#[tactic(auto, unfolding(commit_steps::specs::Staging::staging_name))]
pub fn entry_path(alloc: Global, entry: Entry, number: u32) -> Result<Path, Memory>
    ensures { IfOk result (λ p. p ≡ staged (numbered (letter_of entry) number)) }
{
    let mut names = Vec::new(alloc);
    names.push(known_name(alloc, ".wdired-commit")?)?;
    names.push(entry_name(alloc, entry, number)?)?;
    match Path::join(alloc, &names)? {
        Some(path) => Ok(path),
        None => unreachable!(),
    }
}

// The name of the entry of this number.
fn entry_name(alloc: Global, entry: Entry, number: u32) -> Result<Name, Memory>
    ensures { IfOk result (λ n. n ≡ numbered (letter_of entry) number) }
{
    let letter = entry.letter();
    let text = format!(in alloc; "{letter}{number}")?;
    known_name(alloc, &text)
}

// The name that a text is.
fn known_name(alloc: Global, text: &str) -> Result<Name, Memory>
    requires { IsTrue (is_name text.now) }
    ensures { IfOk result (λ n. n ≡ text.now) }
{
    match Name::new(alloc, text)? {
        Some(name) => Ok(name),
        None => unreachable!(),
    }
}
