// What was found at paths, name by name.
ghost use Rattle.std.specs.Prelude.{◌≡◌, OnOk, IfOk, Some, None, if◌then◌else◌};
ghost use Rattle.std.specs.Option.{option_map, option_or};
ghost use Rattle.dired_text.specs.Paths.{Names};
ghost use Rattle.edit_words.specs.Rows.{is_same_path};
ghost use Rattle.path_map.specs.Walks.{IsPathMap, value_at};
ghost use Rattle.edit_rules.specs.Standing.{IsStanding, found_as, is_other_found, is_standing};

use dired_text::{Memory, Path};
use edit_words::{Findings, Seen};
use path_map::PathMap;
use std::alloc::Global;

/// What was found at a path that was looked at.
#[derive(Clone, Copy)]
pub enum Found {
    Nothing,
    Dir,
    Other,
}

/// What was found at each path that was looked at.
pub fn standing(alloc: Global, findings: &Findings) -> Result<PathMap<Found>, Memory>
    ensures { IfOk result (λ m. IsStanding m findings.now) }
{
    let mut standing = PathMap::new(alloc)?;
    for (path, seen) in findings.found.iter() {
        note_found(&mut standing, path, seen)?;
    }
    Ok(standing)
}

// Notes what was found at a path, if nothing has been noted of it.
fn note_found(standing: &mut PathMap<Found>, path: &Path, seen: &Option<Seen>) -> Result<(), Memory>
    requires { IsPathMap standing.old }
    ensures map { OnOk result (IsPathMap standing.new) }
    ensures noted { OnOk result ((p : Names) → value_at standing.new p ≡
        option_or (value_at standing.old p) (if is_same_path p path.now
        then Some (found_as seen.now) else None)) }
{
    if standing.get(path).is_none() {
        standing.set(path, kind_of(seen))?;
    }
    Ok(())
}

// What was seen, by kind.
fn kind_of(seen: &Option<Seen>) -> Found
    ensures { result ≡ found_as seen.now }
{
    match seen {
        None => Found::Nothing,
        Some(Seen::Dir { .. }) => Found::Dir,
        Some(Seen::Link { .. } | Seen::File { .. }) => Found::Other,
    }
}

/// Whether something other than a directory was found.
pub fn is_other(found: Option<&Found>) -> bool
    ensures { result ≡ is_other_found (option_map (λ f. f.now) found.entry) }
{
    matches!(found, Some(Found::Other))
}

/// Whether something was found.
pub fn stands(found: Option<&Found>) -> bool
    ensures { result ≡ is_standing (option_map (λ f. f.now) found.entry) }
{
    matches!(found, Some(Found::Dir | Found::Other))
}
