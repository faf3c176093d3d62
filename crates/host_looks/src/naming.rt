// The names in a directory of the host.
ghost use Rattle.std.specs.Prelude.{IfOk};
ghost use Rattle.tree_core.specs.Fields.{RiseStrictly};

use crate::looking::{Found, Looks, kind_of, look_at};
use crate::reading::{read_all, read_some};
use dired_text::Name;
use std::alloc::Global;
use std::collections::BTreeSet;
use std::rt::Files;
use tree_core::LookEnd;

// How many bytes of names are read at once to see whether there is one. The host gives no less than a whole name.
const FIRST_NAMES: usize = 4096;

/// The names of the files, directories and links in a directory, in the order of their bytes. Pipes, sockets and devices are left
/// out. It fails where a name isn't UTF-8, and where the host gives a name twice.
pub fn names_at<R: Files>(
    rt: &R,
    looks: &mut Looks,
    alloc: Global,
    names: &[Name],
) -> Result<Vec<Name>, LookEnd>
    ensures { IfOk result (λ found. RiseStrictly found.items) }
{
    let dir = dir_at(rt, looks, alloc, names)?;
    let listed = read_dir(rt, alloc, dir.text.as_str())?;
    in_order(alloc, listed_names(rt, alloc, dir.text.as_str(), &listed)?)
}

/// Whether a directory has no entries. A pipe, a socket or a device counts as one, since the host removes no directory that has
/// any. It reads no further than the first.
pub fn is_empty_at<R: Files>(
    rt: &R,
    looks: &mut Looks,
    alloc: Global,
    names: &[Name],
) -> Result<bool, LookEnd> {
    let dir = dir_at(rt, looks, alloc, names)?;
    let Ok(mut listed) = rt.open_dir(dir.text.as_str()) else {
        return Err(LookEnd::Failed);
    };
    let mut room = vec![in alloc; 0; FIRST_NAMES]?;
    for _ in 0..u64::MAX {
        let count = read_some(&mut listed, &mut room)?;
        if count == 0 {
            return Ok(true);
        }
        if room[..count].split(|b| *b == 0).any(is_entry) {
            return Ok(false);
        }
    }
    Err(LookEnd::Failed)
}

// The directory at a path. It fails where none stands.
fn dir_at<R: Files>(
    rt: &R,
    looks: &mut Looks,
    alloc: Global,
    names: &[Name],
) -> Result<Found, LookEnd> {
    match looks.look(rt, alloc, names)? {
        Some(found) if found.data.is_dir() => Ok(found),
        _ => Err(LookEnd::Failed),
    }
}

// The names in a directory as the host gives them, each ended by a NUL.
fn read_dir<R: Files>(rt: &R, alloc: Global, dir: &str) -> Result<Vec<u8>, LookEnd> {
    match rt.open_dir(dir) {
        Ok(mut names) => match read_all(alloc, &mut names, u64::MAX)? {
            Some(listed) => Ok(listed),
            None => Err(LookEnd::Failed),
        },
        Err(_) => Err(LookEnd::Failed),
    }
}

// Whether the bytes are a name other than those of the directory itself and of the one above.
fn is_entry(name: &[u8]) -> bool {
    !name.is_empty() && name != b".".as_slice() && name != b"..".as_slice()
}

fn listed_names<R: Files>(
    rt: &R,
    alloc: Global,
    dir: &str,
    listed: &[u8],
) -> Result<BTreeSet<Name>, LookEnd> {
    let mut found = BTreeSet::new(alloc);
    for bytes in listed.split(|b| *b == 0) {
        if !is_entry(bytes) {
            continue;
        }
        let name = read_name(alloc, bytes)?;
        if has_kind(rt, alloc, dir, &name)? && !found.insert(name)? {
            return Err(LookEnd::Failed);
        }
    }
    Ok(found)
}

// The bytes as a name.
fn read_name(alloc: Global, bytes: &[u8]) -> Result<Name, LookEnd> {
    match str::from_utf8(bytes) {
        Ok(text) => match Name::new(alloc, text)? {
            Some(name) => Ok(name),
            None => Err(LookEnd::Failed),
        },
        Err(_) => Err(LookEnd::Failed),
    }
}

// Whether a file, a directory or a link stands there.
fn has_kind<R: Files>(rt: &R, alloc: Global, dir: &str, name: &Name) -> Result<bool, LookEnd> {
    let name = name.as_str();
    let text = format!(in alloc; "{dir}/{name}")?;
    match look_at(rt, text.as_str())? {
        Some(data) => Ok(kind_of(&data).is_some()),
        None => Ok(false),
    }
}

fn in_order(alloc: Global, found: BTreeSet<Name>) -> Result<Vec<Name>, LookEnd>
    ensures { IfOk result (λ names. RiseStrictly names.items) }
{
    let mut names = Vec::with_capacity(alloc, found.len())?;
    for name in found {
        names.push(name)?;
    }
    Ok(names)
}
