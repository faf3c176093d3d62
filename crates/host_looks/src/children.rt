// Starting the programs, for what the standard library has no call for.
use crate::commands;
use crate::host_paths::Place;
use dired_text::Name;
use std::alloc::Global;
use std::process::{Command, Processes};
use tree_core::LookEnd;

// The names that `stat` has for ext2 to ext4, xfs, btrfs, f2fs and tmpfs. On these a directory that was synced keeps its entries.
const SYNCED_BY_DIRECTORIES: [&[u8]; 5] = [b"ext2/ext3", b"xfs", b"btrfs", b"f2fs", b"tmpfs"];

/// Writes the whole file system of the working directory.
pub fn sync_root<R: Processes>(rt: &R, alloc: Global) -> Result<(), LookEnd> {
    run(rt, commands::sync_root(alloc)?)
}

/// Writes the whole file system of what stands at a path.
pub fn sync_system<R: Processes>(rt: &R, alloc: Global, names: &[Name]) -> Result<(), LookEnd> {
    let place = Place::of(alloc, names)?;
    run(
        rt,
        commands::sync_entry(alloc, place.dir.as_str(), place.entry.as_str())?,
    )
}

/// Writes all file systems of the host.
pub fn sync_host<R: Processes>(rt: &R, alloc: Global) -> Result<(), LookEnd> {
    run(rt, commands::sync_host(alloc)?)
}

fn run<R: Processes>(rt: &R, mut command: Command) -> Result<(), LookEnd> {
    match command.status(rt) {
        Ok(status) if status.success() => Ok(()),
        _ => Err(LookEnd::Failed),
    }
}

/// Whether what stands at a path is on a file system where the entries of a directory are durable once it was synced.
pub fn is_synced_by_directories<R: Processes>(
    rt: &R,
    alloc: Global,
    names: &[Name],
) -> Result<bool, LookEnd> {
    let place = Place::of(alloc, names)?;
    let mut command = commands::system_type(alloc, place.dir.as_str(), place.entry.as_str())?;
    match command.output(rt) {
        Ok(output) if output.status.success() => {
            Ok(SYNCED_BY_DIRECTORIES.contains(&output.stdout.as_slice()))
        }
        _ => Ok(false),
    }
}

/// The owner and the group of what stands at a path, each by number and by name, each of the four ended by a NUL.
pub fn owners_of<R: Processes>(rt: &R, alloc: Global, names: &[Name]) -> Result<Vec<u8>, LookEnd> {
    let place = Place::of(alloc, names)?;
    let mut command = commands::owners(alloc, place.dir.as_str(), place.entry.as_str())?;
    match command.output(rt) {
        Ok(output) if output.status.success() => Ok(output.stdout),
        _ => Err(LookEnd::Failed),
    }
}
