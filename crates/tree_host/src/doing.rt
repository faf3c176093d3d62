// The only calls that change the host. Each asks that what it touches was noted before it.
ghost use Rattle.std.specs.Prelude.{◌≡◌, true, All, OnOk, IsErr};
ghost use Rattle.dired_text.specs.Paths.{parent};
ghost use Rattle.tree_core.specs.FileTree.{moved as place_after};
ghost use Rattle.tree_host.specs.Notes.{IsNoted};

use crate::touched::Touched;
use dired_text::Path;
use host_looks::{Found, is_same, mode_of};
use std::alloc::Global;
use std::fs::{self, DirBuilder, OpenFile, OpenOptions, Permissions};
use std::io::{self, Write};
use std::os::unix::fs::{DirBuilderExt, OpenOptionsExt, PermissionsExt, symlink};
use std::rt::Files;
use tree_core::LookEnd;

fn done(answer: io::Result<()>) -> Result<(), LookEnd> {
    match answer {
        Ok(()) => Ok(()),
        Err(_) => Err(LookEnd::Failed),
    }
}

/// Makes a directory (POSIX, "mkdir"), with the bits of the mode that the host's mask leaves. Linux takes no set-user and set-group
/// bit here.
pub fn make_dir<R: Files>(rt: &R, touched: &Touched, path: &Path, mode: u16) -> Result<(), LookEnd>
    requires { IsNoted touched.now (parent path.now) × IsNoted touched.now path.now }
{
    let text = path.text()?;
    done(
        DirBuilder::new()
            .mode(u32::from(mode & 0o1777))
            .create(rt, text.as_str()),
    )
}

/// Makes a symbolic link (POSIX, "symlink").
pub fn make_link<R: Files>(
    rt: &R,
    touched: &Touched,
    path: &Path,
    target: &str,
) -> Result<(), LookEnd>
    requires { IsNoted touched.now (parent path.now) }
{
    let text = path.text()?;
    done(symlink(rt, target, text.as_str()))
}

/// Gives a file one more path (POSIX, "link").
pub fn make_hard<R: Files>(
    rt: &R,
    touched: &Touched,
    path: &Path,
    old: &Path,
) -> Result<(), LookEnd>
    requires { IsNoted touched.now (parent path.now) }
{
    let text = path.text()?;
    let old = old.text()?;
    done(fs::hard_link(rt, old.as_str(), text.as_str()))
}

/// Makes a file of these bytes and this mode, and writes both to the disk: a disk that is full may say so only then. Where a part of
/// it failed, the file is taken away.
pub fn write_file<R: Files>(
    rt: &R,
    touched: &Touched,
    path: &Path,
    bytes: &[u8],
    mode: u16,
) -> Result<(), LookEnd>
    requires { IsNoted touched.now (parent path.now) }
{
    let text = path.text()?;
    let made = OpenOptions::new()
        .write(true)
        .create_new(true)
        .mode(u32::from(mode & 0o600))
        .open(rt, text.as_str());
    let Ok(mut file) = made else {
        return Err(LookEnd::Failed);
    };
    match fill(&mut file, bytes, mode) {
        Ok(true) => Ok(()),
        _ => {
            take_back(rt, &file, text.as_str());
            Err(LookEnd::Failed)
        }
    }
}

// Writes bytes and mode to the disk. Whether the host took the mode. The mode comes behind the bytes, since a write takes set-user
// and set-group away.
fn fill<F: Write + OpenFile>(file: &mut F, bytes: &[u8], mode: u16) -> io::Result<bool> {
    file.write_all(bytes)?;
    file.set_permissions(Permissions::from_mode(u32::from(mode)))?;
    file.sync_all()?;
    Ok(mode_of(&file.metadata()?) == mode)
}

// Takes a new file away, where it still stands there.
fn take_back<R: Files>(rt: &R, file: &R::File, text: &str) {
    if let (Ok(own), Ok(there)) = (file.metadata(), fs::symlink_metadata(rt, text)) {
        if is_same(&own, &there) {
            let _ = fs::remove_file(rt, text);
        }
    }
}

/// Moves what stands at `from` (POSIX, "rename"), and its notes with it. Where the host refuses, all is touched: a file system of
/// the network may have done it.
pub fn rename<R: Files>(
    rt: &R,
    alloc: Global,
    touched: &mut Touched,
    from: &Path,
    to: &Path,
) -> Result<(), LookEnd>
    requires { IsNoted touched.old (parent from.now) × IsNoted touched.old (parent to.now) }
    ensures moved { OnOk result
        (All (λ q. IsNoted touched.new (place_after from.now to.now q)) touched.old.paths.keys) }
    ensures all { touched.old.all ≡ true → touched.new.all ≡ true }
    ensures refused { IsErr result → touched.new.all ≡ true }
{
    match rename_at_host(rt, from, to) {
        Ok(()) => {
            touched.moved(alloc, from, to);
            Ok(())
        }
        Err(end) => {
            touched.all = true;
            Err(end)
        }
    }
}

fn rename_at_host<R: Files>(rt: &R, from: &Path, to: &Path) -> Result<(), LookEnd> {
    let (from, to) = (from.text()?, to.text()?);
    done(fs::rename(rt, from.as_str(), to.as_str()))
}

/// Takes a file's path or a link away (POSIX, "unlink").
pub fn remove<R: Files>(rt: &R, touched: &Touched, path: &Path) -> Result<(), LookEnd>
    requires { IsNoted touched.now (parent path.now) }
{
    let text = path.text()?;
    done(fs::remove_file(rt, text.as_str()))
}

/// Takes an empty directory away (POSIX, "rmdir").
pub fn remove_dir<R: Files>(rt: &R, touched: &Touched, path: &Path) -> Result<(), LookEnd>
    requires { IsNoted touched.now (parent path.now) }
{
    let text = path.text()?;
    done(fs::remove_dir(rt, text.as_str()))
}

/// Gives what was found another mode, by an open handle where it can be opened. Where the host makes another mode of it, as
/// where it takes the set-group bit away, the old one is put back.
pub fn set_mode<R: Files>(
    rt: &R,
    touched: &Touched,
    path: &Path,
    found: &Found,
    mode: u16,
) -> Result<(), LookEnd>
    requires { IsNoted touched.now path.now }
{
    let file = fs::open(rt, found.text.as_str()).ok();
    if let Some(file) = &file {
        match file.metadata() {
            Ok(data) if is_same(&data, &found.data) => {}
            _ => return Err(LookEnd::Failed),
        }
    }
    match put_mode(rt, &file, found, mode) {
        Ok(true) => Ok(()),
        _ => {
            let _ = put_mode(rt, &file, found, mode_of(&found.data));
            Err(LookEnd::Failed)
        }
    }
}

// Sets a mode. Whether the host took it.
fn put_mode<R: Files>(
    rt: &R,
    file: &Option<R::File>,
    found: &Found,
    mode: u16,
) -> io::Result<bool> {
    let wanted = Permissions::from_mode(u32::from(mode));
    let data = match file {
        Some(file) => {
            file.set_permissions(wanted)?;
            file.metadata()?
        }
        None => {
            let text = found.text.as_str();
            fs::set_permissions(rt, text, wanted)?;
            fs::symlink_metadata(rt, text)?
        }
    };
    Ok(is_same(&data, &found.data) && mode_of(&data) == mode)
}
