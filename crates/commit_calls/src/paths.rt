// The paths of the staging directory.
ghost use Rattle.std.specs.Prelude.{◌≡◌, IfOk, IsTrue, length};
ghost use Rattle.dired_text.specs.Paths.{is_name};
ghost use Rattle.commit_steps.specs.Staging.{numbered, staged, staging};
ghost use Rattle.commit_calls.specs.Paths.{ArePaths, at_marker_paths, back_marker_paths, fresh_entry_paths, held_entry_paths, letters_of};

use commit_states::Held;
use dired_text::{Memory, Name, Path};
use std::alloc::Global;

const STAGING: &str = ".wdired-commit";

/// The paths that a commit needs, made before its first changing call.
#[derive(Drop)]
pub struct StagingPaths {
    /// The staging directory.
    pub staging: Path,
    /// The journal while it is written.
    pub new_journal: Path,
    /// The journal from then on.
    pub plan: Path,
    /// The journal of a commit that is done.
    pub sealed: Path,
    /// The journal of a commit that was taken back.
    pub undone: Path,
}

/// The paths of the staging directory and of the journal under each of its names.
///
/// # Errors
/// `Memory` where an allocation was refused.
#[tactic(auto, unfolding(commit_steps::specs::Staging::new_journal, commit_steps::specs::Staging::plan, commit_steps::specs::Staging::sealed, commit_steps::specs::Staging::undone))]
pub fn staging_paths(alloc: Global) -> Result<StagingPaths, Memory>
    ensures paths { IfOk result (λ p. ArePaths p) }
{
    Ok(StagingPaths {
        staging: directory_path(alloc)?,
        new_journal: named_path(alloc, "new")?,
        plan: named_path(alloc, "plan")?,
        sealed: named_path(alloc, "done")?,
        undone: named_path(alloc, "undone")?,
    })
}

// The path of the staging directory.
#[tactic(auto, unfolding(commit_steps::specs::Staging::staging_name))]
fn directory_path(alloc: Global) -> Result<Path, Memory>
    ensures { IfOk result (λ p. p ≡ staging) }
{
    let names = [known_name(alloc, STAGING)?];
    match Path::join(alloc, &names)? {
        Some(path) => Ok(path),
        None => unreachable!(),
    }
}

// The path of this name in the staging directory.
#[tactic(auto, unfolding(commit_steps::specs::Staging::staging_name))]
fn named_path(alloc: Global, name: &str) -> Result<Path, Memory>
    requires name { IsTrue (is_name name.now) }
    ensures { IfOk result (λ p. p ≡ staged name.now) }
{
    let names = [known_name(alloc, STAGING)?, known_name(alloc, name)?];
    match Path::join(alloc, &names)? {
        Some(path) => Ok(path),
        None => unreachable!(),
    }
}

// The name that a text is.
fn known_name(alloc: Global, text: &str) -> Result<Name, Memory>
    requires name { IsTrue (is_name text.now) }
    ensures { IfOk result (λ n. n ≡ text.now) }
{
    match Name::new(alloc, text)? {
        Some(name) => Ok(name),
        None => unreachable!(),
    }
}

// What a numbered name in the staging directory stands for.
#[derive(Clone, Copy, Drop)]
pub enum Numbered {
    // The marker of how many steps are done.
    At,
    // The marker of how many are left on the way back.
    Back,
    // A new entry.
    Fresh,
    // Something that was put aside.
    Held,
}

impl Numbered {
    // The letters before the number.
    fn letters(self) -> &'static str
        ensures { result.now ≡ letters_of self }
    {
        match self {
            Numbered::At => "at-",
            Numbered::Back => "back-",
            Numbered::Fresh => "f",
            Numbered::Held => "h",
        }
    }
}

// The path of the name of this number.
fn numbered_path(alloc: Global, what: Numbered, number: u64) -> Result<Path, Memory>
    ensures { IfOk result (λ p. p ≡ staged (numbered (letters_of what) number)) }
{
    let letters = what.letters();
    let text = format!(in alloc; "{letters}{number}")?;
    named_path(alloc, &text)
}

/// The path of the marker `at-K` at each of these cuts.
///
/// # Errors
/// `Memory` where an allocation was refused.
pub fn at_markers(alloc: Global, cuts: &[usize]) -> Result<Vec<Path>, Memory>
    ensures paths { IfOk result (λ ps. ps.items ≡ at_marker_paths cuts.now) }
{
    let mut paths = Vec::new(alloc);
    for cut in cuts {
        paths.push(numbered_path(alloc, Numbered::At, *cut as u64)?)?;
    }
    Ok(paths)
}

/// The path of the marker `back-K` at each of these cuts.
///
/// # Errors
/// `Memory` where an allocation was refused.
pub fn back_markers(alloc: Global, cuts: &[usize]) -> Result<Vec<Path>, Memory>
    ensures paths { IfOk result (λ ps. ps.items ≡ back_marker_paths cuts.now) }
{
    let mut paths = Vec::new(alloc);
    for cut in cuts {
        paths.push(numbered_path(alloc, Numbered::Back, *cut as u64)?)?;
    }
    Ok(paths)
}

/// The path of each of so many fresh entries, `f0` and so on.
///
/// # Errors
/// `Memory` where an allocation was refused.
pub fn fresh_paths(alloc: Global, count: usize) -> Result<Vec<Path>, Memory>
    ensures paths { IfOk result (λ ps. ps.items ≡ fresh_entry_paths count) }
{
    let mut paths = Vec::new(alloc);
    for number in 0..count {
        paths.push(numbered_path(alloc, Numbered::Fresh, number as u64)?)?;
    }
    Ok(paths)
}

/// The path of each thing that was put aside.
///
/// # Errors
/// `Memory` where an allocation was refused.
pub fn held_paths(alloc: Global, held: &[Held]) -> Result<Vec<Path>, Memory>
    ensures paths { IfOk result (λ ps. ps.items ≡ held_entry_paths held.now) }
{
    let mut paths = Vec::new(alloc);
    for one in held {
        paths.push(numbered_path(alloc, Numbered::Held, u64::from(one.number))?)?;
    }
    Ok(paths)
}
