// Who keeps what is above it where it is, found by the order of paths.
ghost use Rattle.std.specs.Prelude.{◌≡◌, ◌&&◌, not, IfOk, IfSome, IfNone, OnOk, Some, None, if◌then◌else◌};
ghost use Rattle.std.specs.BTreeMap.{get};
ghost use Rattle.dired_text.specs.Paths.{Names, parent, path_cmp};
ghost use Rattle.plan_moves.specs.Waiting.{is_in_place as is_in_place_row};
ghost use Rattle.commit_plan.specs.Stands.{waits_at_source};
ghost use Rattle.commit_plan.specs.Boards.{HasKeepers, HasOwnSources, IsAtSource, IsKeeperBelow, NoKeeperBelow, NoneAtSource, is_from, keeps_above};

use crate::changes::{Change, Stand};
use dired_text::{Memory, Name, Path, rest_below};
use edit_words::Row;
use std::alloc::Global;
use std::collections::BTreeMap;
use std::ops::Bound;

/// The changes that keep what is above their sources, by their sources: those that wait there, and those that wait in the staging
/// directory to be written in the directory of their source.
pub type Keepers = BTreeMap<Path, usize>;

/// The keepers among changes.
pub fn keepers_of(alloc: Global, changes: &[Change]) -> Result<Keepers, Memory>
    requires { HasOwnSources changes.now }
    ensures { IfOk result (λ m. HasKeepers changes.now m) }
{
    let mut keepers = BTreeMap::new(alloc);
    for i in 0..changes.len() {
        note_keeper(&mut keepers, i, &changes[i])?;
    }
    Ok(keepers)
}

// Notes a change, if it keeps anything.
fn note_keeper(keepers: &mut Keepers, i: usize, change: &Change) -> Result<(), Memory>
    ensures { OnOk result ((p : Names) → get path_cmp keepers.new p ≡
        (if keeps_above change.now.row change.now.stand && is_from change.now.row.source p
        then Some i else get path_cmp keepers.old p)) }
{
    if let Some(source) = &change.row.source {
        if keeps(change) {
            keepers.insert(source.copy()?, i)?;
        }
    }
    Ok(())
}

/// A change that departs keeps nothing any more.
pub fn drop_departing(keepers: &mut Keepers, change: &Change)
    ensures { (p : Names) → get path_cmp keepers.new p ≡
        (if keeps_above change.now.row change.now.stand && is_from change.now.row.source p then None
        else get path_cmp keepers.old p) }
{
    if let Some(source) = &change.row.source {
        if keeps(change) {
            let _ = keepers.remove(source);
        }
    }
}

/// A change that is put away keeps what is above it only if it is to be written in its directory.
pub fn drop_put_away(keepers: &mut Keepers, row: &Row)
    ensures { (p : Names) → get path_cmp keepers.new p ≡
        (if not (is_in_place_row row.now) && is_from row.now.source p then None
        else get path_cmp keepers.old p) }
{
    if let Some(source) = &row.source {
        if !is_in_place(row) {
            let _ = keepers.remove(source);
        }
    }
}

/// The change that waits at its source, which is this path.
pub fn source_at(changes: &[Change], keepers: &Keepers, path: &Path) -> Option<usize>
    requires { HasKeepers changes.now keepers.now }
    ensures some { IfSome result (λ i. IsAtSource changes.now i path.now) }
    ensures none { IfNone result (NoneAtSource changes.now path.now) }
{
    match keepers.get(path) {
        Some(i) if is_at_source(&changes[*i]) => Some(*i),
        _ => None,
    }
}

/// The first of the keepers below a path. There is one where any is below.
pub fn keeper_below(keepers: &Keepers, path: &Path) -> Option<usize>
    ensures some { IfSome result (λ i. IsKeeperBelow keepers.now path.now i) }
    ensures none { IfNone result (NoKeeperBelow keepers.now path.now) }
{
    match keepers
        .range((Bound::Excluded(path), Bound::Unbounded))
        .next()
    {
        Some((source, i)) if rest_below(path.names(), source.names()).is_some() => Some(*i),
        _ => None,
    }
}

// Whether a change keeps what is above its source.
fn keeps(change: &Change) -> bool
    ensures { result ≡ keeps_above change.now.row change.now.stand }
{
    match &change.stand {
        Stand::Left => false,
        Stand::Waits { away, .. } => !*away || is_in_place(&change.row),
    }
}

// Whether a change waits at its source.
fn is_at_source(change: &Change) -> bool
    ensures { result ≡ waits_at_source change.now.stand }
{
    match &change.stand {
        Stand::Waits { away: false, .. } => true,
        _ => false,
    }
}

// Whether an edit has a source, in whose directory its written path is.
fn is_in_place(row: &Row) -> bool
    ensures { result ≡ is_in_place_row row.now }
{
    match (&row.source, &row.to) {
        (None, _) => false,
        (Some(_), None) => true,
        (Some(source), Some(to)) => dir_names(source).cmp(dir_names(to)).is_eq(),
    }
}

// The names of a path without its last one.
fn dir_names(path: &Path) -> &[Name]
    ensures { result.now ≡ parent path.now }
{
    match path.names() {
        [] => &[],
        [dir @ .., _] => dir,
    }
}
