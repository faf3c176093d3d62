// Making what was touched durable.
use dired_text::{Name, Path};
use host_looks::{Found, Looks, has_mode, open_found, sync_host, sync_root, sync_system};
use std::alloc::Global;
use std::collections::BTreeSet;
use std::fs::OpenFile;
use std::os::unix::fs::MetadataExt;
use std::process::Processes;
use std::rt::Files;
use tree_core::LookEnd;

/// What became of what was to be synced.
#[derive(Clone, Copy, Debug, PartialEq, Eq)]
pub enum Written {
    /// It is on the disk.
    Done,
    /// A whole file system has to be written for it.
    Left,
}

/// Syncs what stands at each of these paths.
pub fn sync_each<R: Files + Processes>(
    rt: &R,
    looks: &mut Looks,
    alloc: Global,
    paths: &BTreeSet<Path>,
) -> Result<Written, LookEnd> {
    if !looks.systems.is_root_synced_by_directories(rt, alloc)? {
        return Ok(Written::Left);
    }
    for path in paths {
        if sync_at(rt, looks, alloc, path.names())? == Written::Left {
            return Ok(Written::Left);
        }
    }
    Ok(Written::Done)
}

// Syncs what stands at a path. Where nothing does any more, or what can't be opened, the directory above stands for it.
fn sync_at<R: Files + Processes>(
    rt: &R,
    looks: &mut Looks,
    alloc: Global,
    names: &[Name],
) -> Result<Written, LookEnd> {
    match looks.look(rt, alloc, names) {
        Ok(Some(found)) if has_mode(&found.data) => sync_found(rt, looks, alloc, names, &found),
        Ok(_) => match names.split_last() {
            Some((_, above)) => sync_at(rt, looks, alloc, above),
            None => Ok(Written::Left),
        },
        Err(_) => Ok(Written::Left),
    }
}

// Opens what was found and syncs it, where that is enough on its file system.
fn sync_found<R: Files + Processes>(
    rt: &R,
    looks: &mut Looks,
    alloc: Global,
    names: &[Name],
    found: &Found,
) -> Result<Written, LookEnd> {
    let device = found.data.dev();
    let is_enough = if looks.systems.is_root(device) {
        looks.systems.is_root_synced_by_directories(rt, alloc)?
    } else {
        looks
            .systems
            .is_synced_by_directories(rt, alloc, device, names)?
    };
    if !is_enough {
        return Ok(Written::Left);
    }
    match open_found(rt, found) {
        Some(file) => match file.sync_all() {
            Ok(()) => Ok(Written::Done),
            Err(_) => Err(LookEnd::Failed),
        },
        None => Ok(Written::Left),
    }
}

/// Syncs the whole file system of the root, and each other one that was met. One on which nothing can be opened any more is
/// written with all of the host's.
pub fn sync_systems<R: Files + Processes>(
    rt: &R,
    looks: &mut Looks,
    alloc: Global,
) -> Result<(), LookEnd> {
    looks.systems.is_root_synced_by_directories(rt, alloc)?;
    sync_root(rt, alloc)?;
    let mut is_left = !looks.systems.are_known();
    for path in &looks.systems.others(alloc)? {
        if sync_system_at(rt, looks, alloc, path.names())? == Written::Left {
            is_left = true;
        }
    }
    if is_left {
        sync_host(rt, alloc)?;
    }
    Ok(())
}

// Syncs the file system of what stands at a path, unless that is the root's. Where nothing stands any more, the directory above
// stands for it.
fn sync_system_at<R: Files + Processes>(
    rt: &R,
    looks: &mut Looks,
    alloc: Global,
    names: &[Name],
) -> Result<Written, LookEnd> {
    match looks.look(rt, alloc, names) {
        Ok(Some(found)) if has_mode(&found.data) => {
            if looks.systems.is_root(found.data.dev()) {
                return Ok(Written::Done);
            }
            if open_found(rt, &found).is_none() {
                return Ok(Written::Left);
            }
            sync_system(rt, alloc, names)?;
            Ok(Written::Done)
        }
        Ok(_) => match names.split_last() {
            Some((_, above)) => sync_system_at(rt, looks, alloc, above),
            None => Ok(Written::Done),
        },
        Err(_) => Ok(Written::Left),
    }
}
