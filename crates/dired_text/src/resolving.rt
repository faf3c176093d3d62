// What a text names from a directory.
ghost use Rattle.std.specs.Prelude.{◌≡◌, ◌≢◌, ◌<◌, ◌+◌, ◌^◌, ◌++◌, ◌∷◌, [], ◌==◌, All, IfSome, IsTrue, MatchOption, Ok, length, position};
ghost use Rattle.dired_text.specs.declared.resolving.NameError.TheVariants.{Memory as memory};
ghost use Rattle.dired_text.specs.Answers.{IsOrMemory};
ghost use Rattle.dired_text.specs.Paths.{is_name, slash};
ghost use Rattle.dired_text.specs.Resolve.{resolved, walked, entered, above, ended, components, Walks};

use crate::path::copy_names;
use crate::splitting::split_first;
use crate::{Name, Path};
use std::alloc::Global;
use thiserror::Error;

/// Why a text names no path. Places count bytes of the text from 0.
#[derive(Clone, Copy, Debug, PartialEq, Eq, Error)]
pub enum NameError {
    /// The text is empty.
    #[error("empty")]
    Empty,
    /// It begins with `/`.
    #[error("absolute")]
    Absolute,
    /// A `..` meets the root.
    #[error("above the root")]
    AboveRoot,
    /// The name at this place has more than 255 bytes; or, at the text's length, the path more than 4,095.
    #[error("too long at byte {0}")]
    TooLong(u64),
    /// A NUL stands at this place.
    #[error("NUL at byte {0}")]
    Nul(u64),
    /// The text names the root.
    #[error("the root")]
    Root,
    /// An allocation was refused.
    #[error("out of memory")]
    Memory,
}

/// The path that a text names from a directory, by its text alone: components are split at `/`, empty ones and `.`
/// are skipped, and `..` takes the last name away.
///
/// # Errors
/// The first refusal from the left, as the variants of [`NameError`] say.
pub fn resolve(alloc: Global, dir: &Path, text: &str) -> Result<Path, NameError>
    ensures { IsOrMemory memory (resolved dir.now text.now) result }
{
    match text.as_bytes() {
        [] => return Err(NameError::Empty),
        [b'/', ..] => return Err(NameError::Absolute),
        _ => {}
    }
    let mut names = copy_names(alloc, dir.names()).map_err(|_| NameError::Memory)?;
    walk(alloc, &mut names, text)?;
    path_of(names, text.len() as u64)
}

// From a directory through the components of a text.
fn walk(alloc: Global, names: &mut Vec<Name>, text: &str) -> Result<(), NameError>
    ensures { Walks (walked names.old.items 0 (components text.now)) result names.new.items }
{
    let mut place = 0;
    let mut rest = text;
    while let Some((component, later)) = split_first(rest, '/') {
        enter(alloc, names, place, component)?;
        place += component.len() as u64 + 1;
        rest = later;
    }
    enter(alloc, names, place, rest)
}

// From a directory into a component, which begins at this place of the text.
fn enter(alloc: Global, names: &mut Vec<Name>, place: u64, component: &str) -> Result<(), NameError>
    requires component { All (λ b. b ≢ slash) component.now }
    requires place { place + length component.now < 2 ^ 64 }
    ensures { Walks (entered names.old.items place component.now) result names.new.items }
{
    if component.is_empty() || component == "." {
        return Ok(());
    }
    if component == ".." {
        return leave(names);
    }
    if component.len() > 255 {
        return Err(NameError::TooLong(place));
    }
    if let Some(nul) = nul_in(component) {
        return Err(NameError::Nul(place + nul as u64));
    }
    push_name(alloc, names, component)
}

// The place of the first NUL.
fn nul_in(text: &str) -> Option<usize>
    ensures place { result ≡ position (λ b. b == 0) text.now }
    ensures within { IfSome result (λ place. place < length text.now) }
{
    text.bytes().position(|b| b == 0)
}

// From a directory into the one above it.
fn leave(names: &mut Vec<Name>) -> Result<(), NameError>
    ensures { Walks (above names.old.items) result names.new.items }
{
    match names.pop() {
        Some(_) => Ok(()),
        None => Err(NameError::AboveRoot),
    }
}

// Pushes a text that is a name. Only memory can be missing.
fn push_name(alloc: Global, names: &mut Vec<Name>, text: &str) -> Result<(), NameError>
    requires { IsTrue (is_name text.now) }
    ensures { Walks (Ok (names.old.items ++ text.now ∷ [])) result names.new.items }
{
    let Ok(found) = Name::new(alloc, text) else {
        return Err(NameError::Memory);
    };
    let Some(name) = found else { unreachable!() };
    match names.push(name) {
        Ok(()) => Ok(()),
        Err(_) => Err(NameError::Memory),
    }
}

// The path of these names, to which a text of so many bytes led.
fn path_of(names: Vec<Name>, bytes: u64) -> Result<Path, NameError>
    ensures { result ≡ ended bytes (Ok names.items) }
{
    if names.is_empty() {
        return Err(NameError::Root);
    }
    Path::from_names(names).ok_or(NameError::TooLong(bytes))
}
