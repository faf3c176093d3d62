// The bytes of the paths of changes.
ghost use Rattle.std.specs.Prelude.{◌≡◌, ◌≤◌, ◌+◌, ◌*◌, ◌^◌, ◌++◌, [], ◌∷◌, IfOk, OnOk, None, if◌then◌else◌, length, map, take};
ghost use Rattle.dired_text.specs.Paths.{path_bytes, max_path_bytes, slashed};
ghost use Rattle.edit_words.specs.Found.{sight_in};
ghost use Rattle.edit_words.specs.Refusals.{first_fault, total};
ghost use Rattle.edit_words.specs.Refusals as fault;
ghost use Rattle.edit_words.specs.Rows.{written as written_path};
ghost use Rattle.std.specs.Option.{option_map};
ghost use Rattle.edit_rules.specs.Standing.{IsStanding, bytes_from, bytes_missing, is_standing, paths_missing};
ghost use Rattle.edit_rules.specs.Tables.{IsTable};
ghost use Rattle.edit_words.specs.WellFormed.{max_changes};

use crate::places::place;
use crate::standing::{Found, standing, stands};
use crate::table::{Table, is_elsewhere, written};
use dired_text::{Memory, Name, Path};
use edit_words::{Findings, Row, ancestor};
use path_map::PathMap;
use std::alloc::Global;

/// The bytes of the paths of all changes: of an edit its source, its written path and its new place, of a removal or a creation
/// its path, and of each the directories that have to be made above the written path.
pub fn changed_bytes(alloc: Global, table: &Table, findings: &Findings) -> Result<u64, Memory>
    requires table { IsTable table.now }
    requires count { length table.now.rows.items ≤ max_changes }
    requires short { first_fault
        (fault.across (sight_in findings.now) table.now.rows.items) table.now.rows.items ≡ None }
    ensures { IfOk result (λ bytes. bytes ≡
        fault.changed_bytes (sight_in findings.now) table.now.rows.items) }
{
    let standing = standing(alloc, findings)?;
    let mut bytes = 0;
    for row in &table.rows {
        bytes += row_bytes(alloc, table, findings, &standing, row)?;
    }
    Ok(bytes)
}

/// The directories that have to be made above the written path of a row, the highest first.
pub fn missing_above(
    alloc: Global,
    findings: &Findings,
    standing: &PathMap<Found>,
    row: &Row,
) -> Result<Vec<Path>, Memory>
    requires { IsStanding standing.now findings.now }
    ensures missing { IfOk result (λ v. v.items ≡
        fault.missing_above (sight_in findings.now) row.now) }
    ensures few { IfOk result (λ v. length v.items ≤ 4096) }
{
    if !is_elsewhere(row) {
        return Ok(Vec::new(alloc));
    }
    let path = written(alloc, row)?;
    let above = standing.above(alloc, &path)?;
    let missing = where_missing(alloc, &path, &above)?;
    Ok(missing)
}

// The paths above a path at which nothing stands.
fn where_missing(alloc: Global, path: &Path, above: &[Option<&Found>]) -> Result<Vec<Path>, Memory>
    requires { length above.now ≡ length path.now }
    ensures { IfOk result (λ v. v.items ≡
        paths_missing [] path.now (map (option_map (λ f. f.now)) above.now)) }
{
    let mut missing = Vec::new(alloc);
    for at in 0..above.len() {
        add_missing(alloc, &mut missing, path, at, above[at])?;
    }
    Ok(missing)
}

// Adds the path of the first names of a path, if nothing stands there.
fn add_missing(
    alloc: Global,
    missing: &mut Vec<Path>,
    path: &Path,
    len: usize,
    found: Option<&Found>,
) -> Result<(), Memory>
    requires { len ≤ length path.now }
    ensures { OnOk result (missing.new.items ≡ missing.old.items
        ++ (if is_standing (option_map (λ f. f.now) found.entry) then [] else take len path.now
        ∷ [])) }
{
    if !stands(found) {
        missing.push(ancestor(alloc, path, len)?)?;
    }
    Ok(())
}

// The bytes of the directories that have to be made above the written path of a row.
fn missing_bytes(
    alloc: Global,
    findings: &Findings,
    standing: &PathMap<Found>,
    row: &Row,
) -> Result<u64, Memory>
    requires { IsStanding standing.now findings.now }
    ensures bytes { IfOk result (λ bytes. bytes ≡
        total path_bytes (fault.missing_above (sight_in findings.now) row.now)) }
    ensures few { IfOk result (λ bytes. bytes ≤ 4096 * max_path_bytes) }
{
    if !is_elsewhere(row) {
        return Ok(0);
    }
    let path = written(alloc, row)?;
    let above = standing.above(alloc, &path)?;
    Ok(bytes_above(path.names(), &above))
}

// The bytes of the paths above one of these names, where nothing stands. The root has none.
fn bytes_above(names: &[Name], above: &[Option<&Found>]) -> u64
    requires { path_bytes names.now ≤ max_path_bytes }
    ensures bytes { result ≡ bytes_missing names.now (map (option_map (λ f. f.now)) above.now) }
    ensures few { result ≤ 4096 * max_path_bytes }
{
    match names {
        [] => 0,
        [name, names @ ..] => match above {
            [] => 0,
            [_, above @ ..] => bytes_below(name.as_str().len() as u64, names, above),
        },
    }
}

// The bytes of a path of so many bytes, and of those with more of these names, but for the last one, where nothing stands.
fn bytes_below(len: u64, names: &[Name], above: &[Option<&Found>]) -> u64
    requires { len + length (slashed names.now) ≤ max_path_bytes }
    ensures bytes { result ≡ bytes_from len names.now (map (option_map (λ f. f.now)) above.now) }
    ensures few { result ≤ max_path_bytes * length (slashed names.now) }
{
    match names {
        [] => 0,
        [name, names @ ..] => match above {
            [] => 0,
            [found, above @ ..] => {
                let own = if stands(*found) { 0 } else { len };
                own + bytes_below(len + 1 + name.as_str().len() as u64, names, above)
            }
        },
    }
}

// The bytes of the paths of a row.
fn row_bytes(
    alloc: Global,
    table: &Table,
    findings: &Findings,
    standing: &PathMap<Found>,
    row: &Row,
) -> Result<u64, Memory>
    requires table { IsTable table.now }
    requires standing { IsStanding standing.now findings.now }
    requires short { fault.path_too_long table.now.rows.items row.now ≡ None }
    ensures bytes { IfOk result (λ bytes. bytes ≡
        fault.row_bytes (sight_in findings.now) table.now.rows.items row.now) }
    ensures few { IfOk result (λ bytes. bytes ≤ 2 ^ 25) }
{
    let own = own_bytes(alloc, table, row)?;
    let missing = missing_bytes(alloc, findings, standing, row)?;
    Ok(own + missing)
}

// The bytes of the paths that a row names, and of its new place.
fn own_bytes(alloc: Global, table: &Table, row: &Row) -> Result<u64, Memory>
    requires table { IsTable table.now }
    requires short { fault.path_too_long table.now.rows.items row.now ≡ None }
    ensures bytes { IfOk result (λ bytes. bytes ≡ fault.own_bytes table.now.rows.items row.now) }
    ensures few { IfOk result (λ bytes. bytes ≤ 3 * max_path_bytes) }
{
    let path = written(alloc, row)?;
    match &row.source {
        Some(source) if !row.removes => {
            let names = place(alloc, table, source)?;
            Ok(path_len(source) + path_len(&path) + names_len(&names))
        }
        _ => Ok(path_len(&path)),
    }
}

// The bytes of a path.
fn path_len(path: &Path) -> u64
    ensures bytes { result ≡ path_bytes path.now }
    ensures few { result ≤ max_path_bytes }
{
    names_len(path.names())
}

// The bytes of names joined by `/`.
fn names_len(names: &[Name]) -> u64
    requires { path_bytes names.now ≤ max_path_bytes }
    ensures { result ≡ path_bytes names.now }
{
    let [first, rest @ ..] = names else {
        return 0;
    };
    let mut bytes = first.as_str().len() as u64;
    for name in rest {
        bytes += 1 + name.as_str().len() as u64;
    }
    bytes
}
