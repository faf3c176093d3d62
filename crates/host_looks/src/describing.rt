// The fields of what stands at a path of the host.
ghost use Rattle.std.specs.Prelude.{◌≡◌, [], IfOk, IsTrue};
ghost use Rattle.std.specs.Str.{is_utf8};
ghost use Rattle.tree_core.specs.FileTree.{IsTarget};
ghost use Rattle.tree_core.specs.Fields.{IsMeta, IsOfKind};

use crate::looking::{Looks, kind_of, mode_of};
use crate::numbering::FileNumbers;
use crate::owners::Owners;
use dired_text::{Memory, Name, Text};
use std::alloc::Global;
use std::fs::{self, Metadata};
use std::os::unix::fs::MetadataExt;
use std::process::Processes;
use std::rt::Files;
use tree_core::{Kind, LookEnd, Meta};

// The longest target of a link in bytes (POSIX, "SYMLINK_MAX", as Linux has it).
const MAX_TARGET_BYTES: usize = 4095;

/// What was asked of the host before: names of owners, and numbers of files.
#[derive(Drop)]
pub struct Known {
    owners: Owners,
    numbers: FileNumbers,
}

impl Known {
    /// Nothing so far.
    pub fn new(alloc: Global) -> Self {
        Known {
            owners: Owners::new(alloc),
            numbers: FileNumbers::new(alloc),
        }
    }
}

/// The fields of what stands at a path. It fails where nothing stands, and at a pipe, a socket or a device.
pub fn meta_at<R: Files + AllocGlobal + Processes>(
    rt: &R,
    looks: &mut Looks,
    known: &mut Known,
    alloc: Global,
    names: &[Name],
) -> Result<Meta, LookEnd>
    ensures { IfOk result (λ meta. IsMeta meta) }
{
    let Some(found) = looks.look(rt, alloc, names)? else {
        return Err(LookEnd::Failed);
    };
    let Some(kind) = kind_of(&found.data) else {
        return Err(LookEnd::Failed);
    };
    let (mode, target) = mode_and_target(rt, alloc, found.text.as_str(), &found.data, kind)?;
    let shown = known.owners.names_of(rt, alloc, names, &found.data)?;
    let is_on_root = looks.systems.is_root(found.data.dev());
    Ok(Meta {
        kind,
        mode,
        links: capped(found.data.nlink()),
        owner: shown.owner,
        group: shown.group,
        size: found.data.size(),
        mtime: found.data.mtime(),
        number: known.numbers.number_of(is_on_root, &found.data)?,
        target,
    })
}

// A link has the mode 0o777 and a target; what isn't a link has no target.
fn mode_and_target<R: Files + AllocGlobal>(
    rt: &R,
    alloc: Global,
    text: &str,
    data: &Metadata,
    kind: Kind,
) -> Result<(u16, Text), LookEnd>
    ensures shape { IfOk result (λ shape. IsOfKind kind shape.0 shape.1) }
    ensures text { IfOk result (λ shape. IsTrue (is_utf8 shape.1)) }
{
    match kind {
        Kind::File => Ok((mode_of(data), no_target(alloc)?)),
        Kind::Dir => Ok((mode_of(data), no_target(alloc)?)),
        Kind::Link => Ok((0o777, target_at(rt, text)?)),
    }
}

fn no_target(alloc: Global) -> Result<Text, Memory>
    ensures none { IfOk result (λ target. target ≡ []) }
    ensures text { IfOk result (λ target. IsTrue (is_utf8 target)) }
{
    Ok(Text::copy_of(alloc, "")?)
}

// Where a link leads. It fails where the host gives what isn't UTF-8 or no lawful target.
fn target_at<R: Files + AllocGlobal>(rt: &R, text: &str) -> Result<Text, LookEnd>
    ensures target { IfOk result (λ target. IsTarget target) }
    ensures text { IfOk result (λ target. IsTrue (is_utf8 target)) }
{
    match fs::read_link(rt, text) {
        Ok(target) => {
            let target = target.into_string();
            if !is_target(target.as_str()) {
                return Err(LookEnd::Failed);
            }
            Ok(Text::from_string(target))
        }
        Err(_) => Err(LookEnd::Failed),
    }
}

/// Whether a text may be the target of a link: 1 to 4,095 bytes without NUL.
pub fn is_target(text: &str) -> bool
    ensures { IsTrue result → IsTarget text.now }
{
    let bytes = text.as_bytes();
    0 < bytes.len() && bytes.len() <= MAX_TARGET_BYTES && bytes.iter().all(|b| *b != 0)
}

// The count, or the greatest number of 32 bits.
fn capped(count: u64) -> u32 {
    u32::try_from(count).unwrap_or(u32::MAX)
}
