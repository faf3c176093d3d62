// Steps at the front of bytes.
ghost use Rattle.std.specs.Prelude.{◌≡◌};
ghost use Rattle.commit_journal.specs.Reading.{Gives, make_dir_at, rename_at, mode_at, step_at, fits as fits_in, next_at};

use crate::Version;
use crate::fault::Refusal;
use crate::paths::read_path;
use crate::reading::read_two;
use commit_steps::{Step, is_lawful};
use std::alloc::Global;

// A step that was read, with the text of its first path and the rest.
#[derive(Drop)]
pub(crate) struct StepRead<'a> {
    pub(crate) step: Step,
    pub(crate) first: Vec<u8>,
    pub(crate) rest: &'a [u8],
}

// A lawful step whose paths have at most so many bytes, where the version has a limit. Its first path is written
// against the base.
#[tactic(auto, unfolding(crate::specs::Reading::next_at))]
pub(crate) fn read_next<'a>(
    alloc: Global,
    version: Version,
    base: &[u8],
    left: usize,
    bytes: &'a [u8],
) -> Result<StepRead<'a>, Refusal>
    ensures { Gives (λ x. (x.step, x.first.items, x.rest.now)) result
        (next_at version base.now left bytes.now) }
{
    let read = read_step(alloc, version, base, bytes)?;
    if !is_lawful(&read.step) || !fits(version, left, read.step.path_bytes()) {
        return Err(Refusal::Unreadable);
    }
    Ok(read)
}

// Whether so many bytes of paths are no more than are left of the sum, which version 1 doesn't have.
fn fits(version: Version, left: usize, bytes: usize) -> bool
    ensures { result ≡ fits_in version left bytes }
{
    match version {
        Version::One => true,
        Version::Two => bytes <= left,
    }
}

#[tactic(auto, unfolding(crate::specs::Reading::step_at))]
fn read_step<'a>(
    alloc: Global,
    version: Version,
    base: &[u8],
    bytes: &'a [u8],
) -> Result<StepRead<'a>, Refusal>
    ensures { Gives (λ x. (x.step, x.first.items, x.rest.now)) result
        (step_at version base.now bytes.now) }
{
    match bytes {
        [b'D', rest @ ..] => read_make_dir(alloc, version, base, rest),
        [b'R', rest @ ..] => read_rename(alloc, version, base, rest),
        [b'M', rest @ ..] => read_mode(alloc, version, base, rest),
        _ => Err(Refusal::Unreadable),
    }
}

#[tactic(auto, unfolding(crate::specs::Reading::make_dir_at))]
fn read_make_dir<'a>(
    alloc: Global,
    version: Version,
    base: &[u8],
    bytes: &'a [u8],
) -> Result<StepRead<'a>, Refusal>
    ensures { Gives (λ x. (x.step, x.first.items, x.rest.now)) result
        (make_dir_at version base.now bytes.now) }
{
    let read = read_path(alloc, version, base, bytes)?;
    Ok(StepRead {
        step: Step::MakeDir(read.path),
        first: read.text,
        rest: read.rest,
    })
}

// The base of the second path is the first.
#[tactic(auto, unfolding(crate::specs::Reading::rename_at))]
fn read_rename<'a>(
    alloc: Global,
    version: Version,
    base: &[u8],
    bytes: &'a [u8],
) -> Result<StepRead<'a>, Refusal>
    ensures { Gives (λ x. (x.step, x.first.items, x.rest.now)) result
        (rename_at version base.now bytes.now) }
{
    let from = read_path(alloc, version, base, bytes)?;
    let to = read_path(alloc, version, &from.text, from.rest)?;
    Ok(StepRead {
        step: Step::Rename(from.path, to.path),
        first: from.text,
        rest: to.rest,
    })
}

#[tactic(auto, unfolding(crate::specs::Reading::mode_at))]
fn read_mode<'a>(
    alloc: Global,
    version: Version,
    base: &[u8],
    bytes: &'a [u8],
) -> Result<StepRead<'a>, Refusal>
    ensures { Gives (λ x. (x.step, x.first.items, x.rest.now)) result
        (mode_at version base.now bytes.now) }
{
    let read = read_path(alloc, version, base, bytes)?;
    let (old, rest) = read_two(read.rest)?;
    let (new, rest) = read_two(rest)?;
    Ok(StepRead {
        step: Step::Mode(read.path, old, new),
        first: read.text,
        rest,
    })
}
