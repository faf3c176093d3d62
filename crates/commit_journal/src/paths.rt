// Paths at the front of bytes.
ghost use Rattle.std.specs.Prelude.{◌≡◌, ◌≢◌, ◌++◌, ◌∷◌, All, MatchOption};
ghost use Rattle.dired_text.specs.Paths.{slash};
ghost use Rattle.commit_journal.specs.Reading.{Gives, whole_at, shared_at, text_at, is_name_text, path_of as path_of_text, path_at};
ghost use Rattle.commit_journal.specs.Reading.{name_of as name_of_text};

use crate::Version;
use crate::fault::Refusal;
use crate::reading::{read_four, read_two, split};
use crate::sharing::shared_bytes;
use dired_text::{MAX_PATH_BYTES, Name, Path};
use std::alloc::Global;
use std::str;

// A path that was read, with its text and the rest.
#[derive(Drop)]
pub(crate) struct PathRead<'a> {
    pub(crate) path: Path,
    pub(crate) text: Vec<u8>,
    pub(crate) rest: &'a [u8],
}

// A path, its text, and the rest. The text is written whole in version 1, against the base in version 2.
#[tactic(auto, unfolding(crate::specs::Reading::path_at))]
pub(crate) fn read_path<'a>(
    alloc: Global,
    version: Version,
    base: &[u8],
    bytes: &'a [u8],
) -> Result<PathRead<'a>, Refusal>
    ensures { Gives (λ x. (x.path, x.text.items, x.rest.now)) result
        (path_at version base.now bytes.now) }
{
    let (text, rest) = read_text(alloc, version, base, bytes)?;
    let path = path_of(alloc, &text)?;
    Ok(PathRead { path, text, rest })
}

fn read_text<'a>(
    alloc: Global,
    version: Version,
    base: &[u8],
    bytes: &'a [u8],
) -> Result<(Vec<u8>, &'a [u8]), Refusal>
    ensures { Gives (λ x. (x.0.items, x.1.now)) result (text_at version base.now bytes.now) }
{
    match version {
        Version::One => read_whole(alloc, bytes),
        Version::Two => read_shared(alloc, base, bytes),
    }
}

// A text that is written whole, behind its length.
#[tactic(auto, unfolding(crate::specs::Reading::whole_at))]
fn read_whole(alloc: Global, bytes: &[u8]) -> Result<(Vec<u8>, &[u8]), Refusal>
    ensures { Gives (λ x. (x.0.items, x.1.now)) result (whole_at bytes.now) }
{
    let (length, rest) = read_two(bytes)?;
    let (text, rest) = split(rest, length as usize)?;
    Ok((Vec::from_slice(alloc, text)?, rest))
}

// A text that is written by how many first bytes it shares with the base, how many further bytes it has, and these.
#[tactic(auto, unfolding(crate::specs::Reading::shared_at))]
fn read_shared<'a>(
    alloc: Global,
    base: &[u8],
    bytes: &'a [u8],
) -> Result<(Vec<u8>, &'a [u8]), Refusal>
    ensures { Gives (λ x. (x.0.items, x.1.now)) result (shared_at base.now bytes.now) }
{
    let (shared, rest) = read_four(bytes)?;
    let (further, rest) = read_four(rest)?;
    let (front, rest) = split(rest, further as usize)?;
    let (kept, _) = split(base, shared as usize)?;
    if kept.len() + front.len() > MAX_PATH_BYTES {
        return Err(Refusal::Unreadable);
    }
    let mut text = Vec::from_slice(alloc, kept)?;
    text.extend_from_slice(front)?;
    if shared_bytes(base, &text) != shared as usize {
        return Err(Refusal::Unreadable);
    }
    Ok((text, rest))
}

// The path whose names, joined by `/`, are these bytes.
fn path_of(alloc: Global, text: &[u8]) -> Result<Path, Refusal>
    ensures { Gives (λ p. p) result (path_of_text text.now) }
{
    if text.len() > MAX_PATH_BYTES {
        return Err(Refusal::Unreadable);
    }
    let mut names = Vec::new(alloc);
    let mut rest = text;
    while let Some((name, later)) = split_at_slash(rest) {
        names.push(name_of(alloc, name)?)?;
        rest = later;
    }
    names.push(name_of(alloc, rest)?)?;
    match Path::join(alloc, &names)? {
        Some(path) => Ok(path),
        None => Err(Refusal::Unreadable),
    }
}

// The bytes before the first slash and the bytes behind it, or None where there is none.
fn split_at_slash(bytes: &[u8]) -> Option<(&[u8], &[u8])>
    ensures { MatchOption result (All (λ b. b ≢ slash) bytes.now)
        (λ x. (bytes.now ≡ x.0.now ++ slash ∷ x.1.now) × (All (λ b. b ≢ slash) x.0.now)) }
{
    let at = bytes.iter().position(|b| *b == b'/')?;
    Some((&bytes[..at], &bytes[at + 1..]))
}

// The name that these bytes are.
fn name_of(alloc: Global, bytes: &[u8]) -> Result<Name, Refusal>
    ensures { Gives (λ n. n) result (name_of_text bytes.now) }
{
    let Ok(text) = str::from_utf8(bytes) else {
        return Err(Refusal::Unreadable);
    };
    match Name::new(alloc, text)? {
        Some(name) => Ok(name),
        None => Err(Refusal::Unreadable),
    }
}
