// What stands at a path of the host. Each directory on the way is looked at, so that no link is followed.
ghost use Rattle.std.specs.Prelude.{◌≡◌, IfOk, IfSome};
ghost use Rattle.std.specs.String.{string_bytes};
ghost use Rattle.tree_core.specs.FileTree.{IsMode};
ghost use Rattle.host_looks.specs.HostPaths.{host_text as host_text_of};

use crate::file_systems::FileSystems;
use crate::host_paths::host_text;
use dired_text::Name;
use std::alloc::Global;
use std::fs::{self, Metadata, OpenFile};
use std::io::ErrorKind;
use std::os::unix::fs::MetadataExt;
use std::rt::Files;
use tree_core::{Kind, LookEnd};

/// What stands at a path.
#[derive(Drop)]
pub struct Found {
    /// The path as the host takes it: its names joined by `/`, and `.` for the root.
    pub text: String,
    pub data: Metadata,
}

/// The directory that was verified last, and the file systems that were met.
#[derive(Drop)]
pub struct Looks {
    // Its names. Each directory above it was verified with it.
    way: Vec<Name>,
    pub systems: FileSystems,
}

impl Looks {
    /// Nothing but the root is known. It fails where the root can't be looked at, or can't be opened for reading.
    pub fn open<R: Files>(rt: &R, alloc: Global) -> Result<Self, LookEnd> {
        let Some(root) = look_at(rt, ".")? else {
            return Err(LookEnd::Failed);
        };
        if rt.open_dir(".").is_err() {
            return Err(LookEnd::Failed);
        }
        Ok(Looks {
            way: Vec::new(alloc),
            systems: FileSystems::new(alloc, root.dev()),
        })
    }

    /// What stands at a path, or None. One call of the host where the directory above was verified last.
    pub fn look<R: Files>(
        &mut self,
        rt: &R,
        alloc: Global,
        names: &[Name],
    ) -> Result<Option<Found>, LookEnd>
        ensures text { IfOk result
            (λ found. IfSome found (λ f. string_bytes f.text ≡ host_text_of names.now)) }
    {
        if let Some((_, above)) = names.split_last() {
            if !self.is_way(rt, alloc, above)? {
                return Ok(None);
            }
        }
        let text = host_text(alloc, names)?;
        match look_at(rt, text.as_str())? {
            Some(data) => {
                self.systems.meet(alloc, data.dev(), names)?;
                Ok(Some(Found { text, data }))
            }
            None => Ok(None),
        }
    }

    /// Whether each of these names is that of a directory in the one before it. Those with which the remembered ones begin aren't
    /// looked at again. What was found to be a directory is remembered.
    pub fn is_way<R: Files>(
        &mut self,
        rt: &R,
        alloc: Global,
        above: &[Name],
    ) -> Result<bool, LookEnd> {
        let known = shared(&self.way, above);
        self.way.truncate(known);
        if known == above.len() {
            return Ok(true);
        }
        let mut text = String::new(alloc);
        for (at, name) in above.iter().enumerate() {
            push_name(&mut text, name)?;
            if at >= known {
                match look_at(rt, text.as_str())? {
                    Some(data) if data.is_dir() => self.remember(alloc, name, data.dev())?,
                    _ => return Ok(false),
                }
            }
        }
        Ok(true)
    }

    // Remembers one directory more, in the one that was remembered.
    fn remember(&mut self, alloc: Global, name: &Name, device: u64) -> Result<(), LookEnd> {
        self.way.push(name.copy()?)?;
        self.systems.meet(alloc, device, &self.way)
    }

    /// Forgets the directories at and below a path, which is about to be moved or taken away.
    pub fn forget_below(&mut self, names: &[Name]) {
        if shared(&self.way, names) == names.len() {
            self.way.clear();
        }
    }
}

// With how many of the names the others begin.
fn shared(way: &[Name], names: &[Name]) -> usize {
    way.iter()
        .zip(names)
        .take_while(|(known, name)| known.as_str() == name.as_str())
        .count()
}

fn push_name(text: &mut String, name: &Name) -> Result<(), LookEnd> {
    if !text.is_empty() {
        text.push_str("/")?;
    }
    text.push_str(name.as_str())?;
    Ok(())
}

/// What stands there, or None. A link at the end is not followed.
pub fn look_at<R: Files>(rt: &R, text: &str) -> Result<Option<Metadata>, LookEnd> {
    match fs::symlink_metadata(rt, text) {
        Ok(found) => Ok(Some(found)),
        Err(e) => match e.kind() {
            ErrorKind::NotFound | ErrorKind::NotADirectory => Ok(None),
            _ => Err(LookEnd::Failed),
        },
    }
}

/// The kind, or None of a pipe, a socket or a device.
pub fn kind_of(data: &Metadata) -> Option<Kind> {
    let file_type = data.file_type();
    if file_type.is_file() {
        Some(Kind::File)
    } else if file_type.is_dir() {
        Some(Kind::Dir)
    } else if file_type.is_symlink() {
        Some(Kind::Link)
    } else {
        None
    }
}

/// The permission bits, with set-user, set-group and sticky.
pub fn mode_of(data: &Metadata) -> u16
    ensures { IsMode result }
{
    (data.mode() & 0o7777) as u16
}

/// Whether it has a mode of its own: a directory or a file.
pub fn has_mode(data: &Metadata) -> bool {
    data.is_file() || data.is_dir()
}

/// Whether both are the fields of one file or directory.
pub fn is_same(one: &Metadata, other: &Metadata) -> bool {
    one.dev() == other.dev() && one.ino() == other.ino()
}

/// What was found, opened for reading, where the host lets it be opened and it is still the same: the host would follow a link that
/// took its place.
pub fn open_found<R: Files>(rt: &R, found: &Found) -> Option<R::File> {
    let file = fs::open(rt, found.text.as_str()).ok()?;
    match file.metadata() {
        Ok(data) if is_same(&data, &found.data) => Some(file),
        _ => None,
    }
}
