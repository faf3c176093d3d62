// Steps written as a journal of version 2.
ghost use Rattle.std.specs.Prelude.{◌≡◌, ◌++◌, ◌↔◌, IfOk, OnOk, IsTrue};
ghost use Rattle.std.specs.List.{AllByRecursion};
ghost use Rattle.dired_text.specs.Paths.{joined, slashed};
ghost use Rattle.commit_steps.specs.Steps.{HasPaths, IsName, IsPath, first_path};
ghost use Rattle.commit_journal.specs.declared.version.Version.TheVariants.{Two};
ghost use Rattle.commit_journal.specs.Grammar.{IsJournalOf, four_bytes};
ghost use Rattle.commit_journal.specs.Spelling.{CanEncode, journal_text, path_text, step_text};

use crate::sharing::shared_bytes;
use commit_steps::{Step, Steps, is_lawful};
use dired_text::{Bytes, Memory, Name, Path};
use std::alloc::Global;

// The most bytes that the paths of a journal of version 2 have together.
pub(crate) const MAX_ALL_BYTES: usize = 268_435_456;

/// Whether [`encode`] can write these steps: they are lawful, as [`commit_steps::is_lawful`] says, and fewer than
/// 4,294,967,296, and their paths have at most 268,435,456 bytes together.
pub fn can_encode(steps: &Steps) -> bool
    ensures { IsTrue result ↔ CanEncode steps.now }
{
    let steps = steps.as_slice();
    let mut left = MAX_ALL_BYTES;
    for step in steps {
        let bytes = step.path_bytes();
        if !is_lawful(step) || left < bytes {
            return false;
        }
        left -= bytes;
    }
    steps.len() <= u32::MAX as usize
}

/// The journal of these steps, of version 2.
///
/// # Errors
/// Want of memory.
pub fn encode(alloc: Global, steps: &Steps) -> Result<Bytes, Memory>
    requires { CanEncode steps.now }
    ensures journal { IfOk result (λ b. IsJournalOf Two steps.now b) }
    ensures text { IfOk result (λ b. b ≡ journal_text Two steps.now) }
{
    let steps = steps.as_slice();
    let mut out = Vec::from_slice(alloc, b"WDJ2")?;
    push_four(&mut out, steps.len() as u32)?;
    let mut base = Vec::new(alloc);
    for step in steps {
        base = push_step(alloc, &mut out, &base, step)?;
    }
    Ok(Bytes::from_vec(out))
}

// Writes a step at the end, its first path against the base, and gives the text of that path.
#[tactic(auto, unfolding(crate::specs::Spelling::step_text))]
fn push_step(alloc: Global, out: &mut Vec<u8>, base: &[u8], step: &Step) -> Result<Vec<u8>, Memory>
    ensures text { OnOk result (out.new.items ≡ out.old.items ++ step_text Two base.now step.now) }
    ensures first { IfOk result (λ v. v.items ≡ joined (first_path step.now)) }
    ensures paths { OnOk result (HasPaths step.now) }
{
    match step {
        Step::MakeDir(path) => {
            out.push(b'D')?;
            push_path(alloc, out, base, path)
        }
        Step::Rename(from, to) => {
            out.push(b'R')?;
            let first = push_path(alloc, out, base, from)?;
            push_path(alloc, out, &first, to)?;
            Ok(first)
        }
        Step::Mode(path, old, new) => {
            out.push(b'M')?;
            let first = push_path(alloc, out, base, path)?;
            out.extend_from_slice(&old.to_be_bytes())?;
            out.extend_from_slice(&new.to_be_bytes())?;
            Ok(first)
        }
    }
}

// Writes a path at the end, against the base, and gives its text.
#[tactic(auto, unfolding(crate::specs::Spelling::path_text))]
fn push_path(alloc: Global, out: &mut Vec<u8>, base: &[u8], path: &Path) -> Result<Vec<u8>, Memory>
    ensures text { OnOk result (out.new.items ≡ out.old.items ++ path_text Two base.now path.now) }
    ensures joined { IfOk result (λ v. v.items ≡ joined path.now) }
    ensures path { OnOk result (IsPath path.now) }
{
    let text = text_of(alloc, path)?;
    let shared = shared_bytes(base, &text);
    push_four(out, shared as u32)?;
    push_four(out, (text.len() - shared) as u32)?;
    out.extend_from_slice(&text[shared..])?;
    Ok(text)
}

// Writes a number at the end, in four bytes.
fn push_four(out: &mut Vec<u8>, number: u32) -> Result<(), Memory>
    ensures { OnOk result (out.new.items ≡ out.old.items ++ four_bytes number) }
{
    out.extend_from_slice(&number.to_be_bytes())?;
    Ok(())
}

// The names of a path, joined by `/`.
fn text_of(alloc: Global, path: &Path) -> Result<Vec<u8>, Memory>
    ensures joined { IfOk result (λ v. v.items ≡ joined path.now) }
    ensures path { OnOk result (IsPath path.now) }
{
    let mut text = Vec::new(alloc);
    if let [first, rest @ ..] = path.names() {
        text.extend_from_slice(first.as_str().as_bytes())?;
        push_slashed(&mut text, rest)?;
    }
    Ok(text)
}

// Writes names at the end, each behind a slash.
fn push_slashed(text: &mut Vec<u8>, names: &[Name]) -> Result<(), Memory>
    ensures slashed { OnOk result (text.new.items ≡ text.old.items ++ slashed names.now) }
    ensures names { OnOk result (AllByRecursion IsName names.now) }
{
    for name in names {
        text.push(b'/')?;
        text.extend_from_slice(name.as_str().as_bytes())?;
    }
    Ok(())
}
