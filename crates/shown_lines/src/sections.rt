// The section of the current file.
ghost use Rattle.std.specs.Prelude.{◌≡◌, IfOk};
ghost use Rattle.std.specs.List.{filter_map, list_any};
ghost use Rattle.std.specs.Option.{option_map};
ghost use Rattle.dired_text.specs.Resolve.{resolved};
ghost use Rattle.section_buffer.specs.Places.{same_names};
ghost use Rattle.shown_lines.specs.Sections.{current_paths, has_current as has_current_path, path_in, section_paths as paths_in_section};

use dired_text::{Memory, NameError, Path, resolve};
use listing_text::Line;
use section_buffer::{Buffer, Section};
use std::alloc::Global;

// The path that a name has from a directory, if it has one.
fn path_of(alloc: Global, dir: &Path, name: &str) -> Result<Option<Path>, Memory>
    ensures { IfOk result (λ path. path ≡ path_in (resolved dir.now name.now)) }
{
    match resolve(alloc, dir, name) {
        Ok(path) => Ok(Some(path)),
        Err(NameError::Memory) => Err(Memory),
        Err(_) => Ok(None),
    }
}

// The paths of these lines of a directory.
fn paths_of(alloc: Global, dir: &Path, lines: &[Line]) -> Result<Vec<Path>, Memory>
    ensures { IfOk result (λ paths. paths.items ≡
        filter_map (λ line. path_in (resolved dir.now line.name)) lines.now) }
{
    let mut paths = Vec::new(alloc);
    for line in lines {
        if let Some(path) = path_of(alloc, dir, line.name.as_str())? {
            paths.push(path)?;
        }
    }
    Ok(paths)
}

// The paths of all lines of a section.
fn section_paths(alloc: Global, section: &Section) -> Result<Vec<Path>, Memory>
    ensures { IfOk result (λ paths. paths.items ≡ paths_in_section section.now) }
{
    paths_of(alloc, &section.dir, section.lines.as_slice())
}

fn is_among(path: &Path, paths: &[Path]) -> bool
    ensures { result ≡ list_any (same_names path.now) paths.now }
{
    paths.iter().any(|other| path == other)
}

// Whether a section has the line of a path.
fn has_path(alloc: Global, path: &Path, section: &Section) -> Result<bool, Memory>
    ensures { IfOk result (λ has. has ≡
        list_any (same_names path.now) (paths_in_section section.now)) }
{
    let paths = section_paths(alloc, section)?;
    Ok(is_among(path, &paths))
}

// Whether a section has the line of the current path.
fn has_current(alloc: Global, current: Option<&Path>, section: &Section) -> Result<bool, Memory>
    ensures { IfOk result (λ has. has ≡
        has_current_path (option_map (λ path. path.now) current.entry) section.now) }
{
    match current {
        None => Ok(false),
        Some(path) => has_path(alloc, path, section),
    }
}

// The paths of all lines of the section that has the current path, else of the first.
fn paths_from(
    alloc: Global,
    sections: &[Section],
    current: Option<&Path>,
) -> Result<Vec<Path>, Memory>
    ensures { IfOk result (λ paths. paths.items ≡
        current_paths (option_map (λ path. path.now) current.entry) sections.now) }
{
    for section in sections {
        if has_current(alloc, current, section)? {
            return section_paths(alloc, section);
        }
    }
    match sections.first() {
        Some(root) => section_paths(alloc, root),
        None => Ok(Vec::new(alloc)),
    }
}

// The paths of all lines of the section that has the current path, else of the first, which is that of the root.
pub(crate) fn paths_in_current(
    alloc: Global,
    buffer: &Buffer,
    current: Option<&Path>,
) -> Result<Vec<Path>, Memory>
    ensures { IfOk result (λ paths. paths.items ≡
        current_paths (option_map (λ path. path.now) current.entry) buffer.now.sections) }
{
    let sections = buffer.sections()?;
    paths_from(alloc, &sections, current)
}
