// The rules that changes have to keep to, row by row.
ghost use Rattle.std.specs.Prelude.{◌≡◌, [], IfOk, None, length, map};
ghost use Rattle.std.specs.BTreeMap.{get};
ghost use Rattle.std.specs.Option.{option_map};
ghost use Rattle.std.specs.Ordering.{nat_cmp};
ghost use Rattle.path_map.specs.Walks.{value_at};
ghost use Rattle.edit_words.specs.declared.fault.CheckFault.TheVariants as faults;
ghost use Rattle.edit_rules.specs.Claims.{first_line, least_line, other_mode_line};
ghost use Rattle.edit_words.specs.Place.{ancestors};
ghost use Rattle.edit_words.specs.Sight.{number_at};
ghost use Rattle.edit_rules.specs.Standing.{IsStanding, least_missing, other_in};
ghost use Rattle.edit_words.specs.Found.{sight_in};
ghost use Rattle.edit_rules.specs.Tables.{AreFileModes, IsTable};
ghost use Rattle.edit_words.specs.Rows.{written as written_path};
ghost use Rattle.edit_words.specs.Refusals.{is_staged_at};
ghost use Rattle.edit_words.specs.Refusals as fault;
ghost use Rattle.edit_words.specs.WellFormed.{LinesRise};

use crate::claims::{Claim, FileClaims, least, lesser, line_of};
use crate::places::place;
use crate::standing::{Found, is_other, stands};
use crate::table::{Table, is_elsewhere, written};
use dired_text::{Memory, Path};
use edit_words::{CheckFault, Findings, Row, ancestor};
use path_map::PathMap;
use std::alloc::Global;

/// The name of the staging directory of a commit.
pub const STAGING: &str = ".wdired-commit";

/// The lowest fault of a row that stands across lines.
pub fn across(
    alloc: Global,
    table: &Table,
    findings: &Findings,
    standing: &PathMap<Found>,
    file_modes: &FileClaims,
    row: &Row,
) -> Result<Option<CheckFault>, Memory>
    requires table { IsTable table.now }
    requires standing { IsStanding standing.now findings.now }
    requires file_modes { AreFileModes
        (sight_in findings.now) file_modes.now.claims table.now.rows.items }
    requires lines { LinesRise table.now.rows.items }
    ensures { IfOk result (λ f. f ≡
        fault.across (sight_in findings.now) table.now.rows.items row.now) }
{
    if let Some(fault) = reserved(row) {
        return Ok(Some(fault));
    }
    let path = written(alloc, row)?;
    if let Some(fault) = two_to_one(table, row, &path) {
        return Ok(Some(fault));
    }
    if let Some(fault) = mode_clash(table, findings, file_modes, row) {
        return Ok(Some(fault));
    }
    if let Some(fault) = parents(alloc, table, findings, standing, row, &path)? {
        return Ok(Some(fault));
    }
    path_too_long(alloc, table, row)
}

// A path of the staging directory.
fn reserved(row: &Row) -> Option<CheckFault>
    ensures { result ≡ fault.reserved row.now }
{
    if is_staged(&row.source) || is_staged(&row.to) {
        Some(CheckFault::Reserved(row.line))
    } else {
        None
    }
}

// Whether a path is that of the staging directory or below it.
fn is_staged(path: &Option<Path>) -> bool
    ensures { result ≡ is_staged_at path.now }
{
    match path {
        None => false,
        Some(path) => match path.names() {
            [] => false,
            [first, ..] => STAGING == first.as_str(),
        },
    }
}

// Another line with the same written path.
#[tactic(auto, using(crate::proofs::RuleLemmas::two_rule))]
fn two_to_one(table: &Table, row: &Row, path: &Path) -> Option<CheckFault>
    requires table { IsTable table.now }
    requires path { path.now ≡ written_path row.now }
    ensures { result ≡ fault.two_to_one table.now.rows.items row.now }
{
    let other = table.writers.other(path, row.line);
    other.map(|other| CheckFault::TwoToOne(row.line, other))
}

// Another line with another mode for the same file.
#[tactic(auto, using(crate::proofs::RuleLemmas::mode_rule))]
fn mode_clash(
    table: &Table,
    findings: &Findings,
    file_modes: &FileClaims,
    row: &Row,
) -> Option<CheckFault>
    requires file_modes { AreFileModes
        (sight_in findings.now) file_modes.now.claims table.now.rows.items }
    ensures { result ≡ fault.mode_clash (sight_in findings.now) table.now.rows.items row.now }
{
    let number = file_number(findings, &row.source);
    let other = other_mode(file_modes, number, row.mode);
    other.map(|other| CheckFault::ModeClash(row.line, other))
}

/// The number of the file that was found at a path, where there is a path.
pub fn file_number(findings: &Findings, path: &Option<Path>) -> Option<u64>
    ensures { result ≡ number_at (sight_in findings.now) path.now }
{
    match path {
        None => None,
        Some(path) => findings.file_number(path),
    }
}

// The first line with another mode for the file of this number.
fn other_mode(file_modes: &FileClaims, number: Option<u64>, mode: Option<u16>) -> Option<u32>
    ensures { result ≡ other_mode_line (λ n. get nat_cmp file_modes.now.claims n) number mode }
{
    match (number, mode) {
        (Some(number), Some(mode)) => file_modes.other(number, mode as u32),
        _ => None,
    }
}

// A fault of what stands, or has to be made, above an elsewhere written path.
#[tactic(auto, using(crate::proofs::RuleLemmas::elsewhere_rule, crate::proofs::RuleLemmas::in_place_rule))]
fn parents(
    alloc: Global,
    table: &Table,
    findings: &Findings,
    standing: &PathMap<Found>,
    row: &Row,
    path: &Path,
) -> Result<Option<CheckFault>, Memory>
    requires table { IsTable table.now }
    requires standing { IsStanding standing.now findings.now }
    requires lines { LinesRise table.now.rows.items }
    requires path { path.now ≡ written_path row.now }
    ensures { IfOk result (λ f. f ≡
        fault.parents (sight_in findings.now) table.now.rows.items row.now) }
{
    if !is_elsewhere(row) {
        return Ok(None);
    }
    let above = standing.above(alloc, path)?;
    if let Some(fault) = no_directory(alloc, row, path, &above)? {
        return Ok(Some(fault));
    }
    if let Some(fault) = moved_parent(alloc, table, row, path)? {
        return Ok(Some(fault));
    }
    let taken = parent_taken(alloc, table, row, path, &above)?;
    Ok(taken)
}

// The first path above this one at which something other than a directory stands.
fn no_directory(
    alloc: Global,
    row: &Row,
    path: &Path,
    above: &[Option<&Found>],
) -> Result<Option<CheckFault>, Memory>
    requires { length above.now ≡ length path.now }
    ensures { IfOk result (λ f. f ≡
        option_map (faults.ParentNotDirectory row.now.line)
        (other_in [] path.now (map (option_map (λ f. f.now)) above.now))) }
{
    for at in 0..above.len() {
        if is_other(above[at]) {
            let other = ancestor(alloc, path, at)?;
            return Ok(Some(CheckFault::ParentNotDirectory(row.line, other)));
        }
    }
    Ok(None)
}

// The least line that moves a path above this one.
fn moved_parent(
    alloc: Global,
    table: &Table,
    row: &Row,
    path: &Path,
) -> Result<Option<CheckFault>, Memory>
    ensures { IfOk result (λ f. f ≡
        option_map (faults.MovedParent row.now.line)
        (least_line (λ p. first_line (value_at table.now.movers.claims p)) None
        (ancestors path.now))) }
{
    let movers = table.movers.claims.above(alloc, path)?;
    let other = least(&movers);
    Ok(other.map(|other| CheckFault::MovedParent(row.line, other)))
}

// The least line that writes a path above this one where nothing stands.
fn parent_taken(
    alloc: Global,
    table: &Table,
    row: &Row,
    path: &Path,
    above: &[Option<&Found>],
) -> Result<Option<CheckFault>, Memory>
    ensures { IfOk result (λ f. f ≡
        option_map (faults.ParentTaken row.now.line)
        (least_missing None (map (value_at table.now.writers.claims) (ancestors path.now))
        (map (option_map (λ f. f.now)) above.now))) }
{
    let writers = table.writers.claims.above(alloc, path)?;
    let other = first_missing(None, &writers, above);
    Ok(other.map(|other| CheckFault::ParentTaken(row.line, other)))
}

// The least of this line and of the first lines of claims where nothing stands.
fn first_missing(
    so_far: Option<u32>,
    claims: &[Option<&Claim>],
    above: &[Option<&Found>],
) -> Option<u32>
    ensures { result ≡ least_missing so_far (map (option_map (λ c. c.now)) claims.now)
        (map (option_map (λ f. f.now)) above.now) }
{
    match claims {
        [] => so_far,
        [claim, claims @ ..] => match above {
            [] => so_far,
            [found, above @ ..] => {
                let least = if stands(*found) {
                    so_far
                } else {
                    lesser(so_far, line_of(*claim))
                };
                first_missing(least, claims, above)
            }
        },
    }
}

// A new place of more than 4,095 bytes.
fn path_too_long(alloc: Global, table: &Table, row: &Row) -> Result<Option<CheckFault>, Memory>
    requires table { IsTable table.now }
    ensures { IfOk result (λ f. f ≡ fault.path_too_long table.now.rows.items row.now) }
{
    let Some(source) = &row.source else {
        return Ok(None);
    };
    let names = place(alloc, table, source)?;
    match Path::join(alloc, &names)? {
        Some(_) => Ok(None),
        None => Ok(Some(CheckFault::PathTooLong(row.line))),
    }
}
