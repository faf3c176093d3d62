// The backups that are to be removed.
ghost use Rattle.std.specs.Prelude.{◌≡◌, ◌<◌, IfOk, OnOk, OnErr, length, nat_le, slice_index_or};
ghost use Rattle.std.specs.FinMap as map;
ghost use Rattle.std.specs.List.Sorted.{IsStrictlySortedBy};
ghost use Rattle.std.specs.Map.{keys_of};
ghost use Rattle.dired_text.specs.Paths.{Names, joined};
ghost use Rattle.mark_table.specs.declared.version.Version.{Version as version};
ghost use Rattle.mark_table.specs.Versions.{version_in};
ghost use Rattle.mark_table.specs.Excess.{backups, excess, is_excess as is_excess_version, newer, older, version_cmp, with_backup};

use crate::numbers::version_at;
use crate::version::{Stem, Version};
use dired_text::{Memory, Path};
use std::alloc::Global;
use std::collections::BTreeMap;

// Adds a path where it is that of a numeric backup.
fn add(alloc: Global, backups: &mut BTreeMap<Version, Path>, path: &Path) -> Result<(), Memory>
    ensures { OnOk result (map.from_entries {R = version_cmp} backups.new.entries ≡
        with_backup (version_in (joined path.now)) path.now
        (map.from_entries backups.old.entries)) }
{
    let text = path.text()?;
    let bytes = text.as_str().as_bytes();
    let Some((len, number)) = version_at(bytes) else {
        return Ok(());
    };
    let stem = Stem::copy_of(alloc, &bytes[..len])?;
    backups.insert(Version { stem, number }, path.copy()?)?;
    Ok(())
}

// The numeric backups among these paths, by version.
fn collect(alloc: Global, shown: &[Path]) -> Result<BTreeMap<Version, Path>, Memory>
    ensures { IfOk result (λ m. map.from_entries {R = version_cmp} m.entries ≡ backups shown.now) }
{
    let mut found = BTreeMap::new(alloc);
    for path in shown {
        add(alloc, &mut found, path)?;
    }
    Ok(found)
}

// The numeric backups among these paths, in the order of their versions.
fn sorted(alloc: Global, shown: &[Path]) -> Result<Vec<(Version, Path)>, Memory>
    ensures all { IfOk result (λ v. v.items ≡ map.entries (backups shown.now)) }
    ensures sorted { IfOk result (λ v. IsStrictlySortedBy version_cmp (keys_of v.items)) }
{
    let found = collect(alloc, shown)?;
    let mut rows = Vec::with_capacity(alloc, found.len())?;
    for row in found {
        rows.push(row)?;
    }
    Ok(rows)
}

// Whether at least so many versions of the same file are older. These stand before it with none between.
fn has_older(rows: &[(Version, Path)], at: usize, count: usize) -> bool
    requires sorted { IsStrictlySortedBy version_cmp (keys_of rows.now) }
    requires within { at < length rows.now }
    ensures { (row : version × Names) → row ≡ slice_index_or rows.now at row → result ≡
        nat_le count (older (keys_of rows.now) row.0) }
{
    count <= at && rows[at - count].0.stem == rows[at].0.stem
}

// Whether at least so many versions of the same file are newer. These stand behind it with none between.
fn has_newer(rows: &[(Version, Path)], at: usize, count: usize) -> bool
    requires sorted { IsStrictlySortedBy version_cmp (keys_of rows.now) }
    requires within { at < length rows.now }
    ensures { (row : version × Names) → row ≡ slice_index_or rows.now at row → result ≡
        nat_le count (newer (keys_of rows.now) row.0) }
{
    count < rows.len() - at && rows[at + count].0.stem == rows[at].0.stem
}

/// The numeric backups among the shown paths that are in excess: of each directory and BASE, those named `BASE.~N~` in
/// order of N, without the first `kept_old` and the last `kept_new` (GNU Emacs Manual, "Deletion of Backups"). N counts
/// from 1 and is written in decimal without a leading zero, in at most 18 digits; BASE may be empty. A path that is
/// shown twice counts once. The answer is ordered by directory with BASE, and then by N.
///
/// # Errors
/// Want of memory.
pub fn excess_backups(
    alloc: Global,
    shown: &[Path],
    kept_old: u32,
    kept_new: u32,
) -> Result<Vec<Path>, Memory>
    ensures { IfOk result (λ v. v.items ≡ excess kept_old kept_new shown.now) }
{
    let rows = sorted(alloc, shown)?;
    let mut found = Vec::new(alloc);
    for (at, row) in rows.iter().enumerate() {
        if has_older(&rows, at, kept_old as usize) && has_newer(&rows, at, kept_new as usize) {
            found.push(row.1.copy()?)?;
        }
    }
    Ok(found)
}
