// Paths as the host and its programs take them.
ghost use Rattle.std.specs.Prelude.{◌≡◌, ◌++◌, codes, IfOk, OnOk};
ghost use Rattle.std.specs.String.{string_bytes};
ghost use Rattle.dired_text.specs.Paths.{parent, slashed};
ghost use Rattle.host_looks.specs.HostPaths.{entry_text, host_text as host_text_of};

use dired_text::{Memory, Name};
use std::alloc::Global;

/// The names joined by `/`, and `.` for the root.
pub fn host_text(alloc: Global, names: &[Name]) -> Result<String, Memory>
    ensures { IfOk result (λ text. string_bytes text ≡ host_text_of names.now) }
{
    match names {
        [] => Ok(String::from_str(alloc, ".")?),
        [first, rest @ ..] => {
            let mut text = String::from_str(alloc, first.as_str())?;
            push_names(&mut text, rest)?;
            Ok(text)
        }
    }
}

// Pushes names, each behind a slash.
fn push_names(text: &mut String, names: &[Name]) -> Result<(), Memory>
    ensures { OnOk result (string_bytes text.new ≡ string_bytes text.old ++ slashed names.now) }
{
    for name in names {
        text.push_str("/")?;
        text.push_str(name.as_str())?;
    }
    Ok(())
}

/// What stands at a path as a program is told of it: by its name in the directory above, since the path with `./` in front may be
/// too long for the host.
#[derive(Drop)]
pub struct Place {
    /// The directory above, as the host takes it.
    pub dir: String,
    /// The name there with `./` in front, and `.` for the root.
    pub entry: String,
}

impl Place {
    /// That of a path.
    pub fn of(alloc: Global, names: &[Name]) -> Result<Self, Memory>
        ensures dir { IfOk result (λ place. string_bytes place.dir ≡
            host_text_of (parent names.now)) }
        ensures entry { IfOk result (λ place. string_bytes place.entry ≡ entry_text names.now) }
    {
        match names {
            [] => Ok(Place {
                dir: String::from_str(alloc, ".")?,
                entry: String::from_str(alloc, ".")?,
            }),
            [above @ .., last] => Ok(Place {
                dir: host_text(alloc, above)?,
                entry: dotted(alloc, last)?,
            }),
        }
    }
}

// A name with `./` in front.
fn dotted(alloc: Global, name: &Name) -> Result<String, Memory>
    ensures { IfOk result (λ text. string_bytes text ≡ codes "./" ++ name.now) }
{
    let mut text = String::from_str(alloc, "./")?;
    text.push_str(name.as_str())?;
    Ok(text)
}
