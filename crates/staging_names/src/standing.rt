// What stands in the staging directory, and which of it is foreign.
ghost use Rattle.std.specs.Prelude.{◌≡◌, Some, None, Option, IfErr, IfSome, ◌<◌, length, position, not};
ghost use Rattle.staging_names.specs.Tests.{TellsStanding, allows_entry as entry_in_row, allows_marker as marker_in_row, beyond_place, counts_more as counts_more_than, fits as fits_row, foreign_place, is_file as is_file_kind, is_file_or_link as is_file_or_link_kind, is_journal as is_journal_found, is_kind_for as kind_for, is_marker as is_marker_found, journal_in as journal_in_name, journal_of as journal_standing, marker_in as marker_in_name, marker_of as marker_standing, of_two_journals, second_position, unfit as unfit_place, unmarked as unmarked_place};

use crate::{Journal, Marker, Role, Side, StagedName};
use tree_core::Kind;

/// What stands under a name in the staging directory, as looks find it.
#[derive(Clone, Copy, Debug, PartialEq, Eq)]
pub struct Found {
    /// What the name stands for.
    pub name: StagedName,
    /// Its kind, or None where nothing stands any more.
    pub kind: Option<Kind>,
    /// Whether it was put aside and is an empty directory.
    pub is_empty: bool,
}

/// The journal and the marker that stand.
#[derive(Clone, Copy, Debug, PartialEq, Eq)]
pub struct Standing {
    pub journal: Option<Journal>,
    pub marker: Option<Marker>,
}

/// The journal and the marker in what was found, which comes in the order of the names. Without a journal `new`, `at-0` and `fN` may
/// stand, with `plan` one marker, `tN`, `hN` and `fN`, with `done` `hN` and `at-M`, with `undone` `fN` and `back-M`. `new`, journals and
/// markers are files, `fN` files or links, `hN` files, links or empty directories, and `tN` anything.
///
/// # Errors
/// The place of what is foreign, by the first of these: of several journals the first; the first that isn't as said; of several markers
/// the second; `plan` where no marker stands.
pub fn sort_out(found: &[Found]) -> Result<Standing, usize>
    ensures sorted { TellsStanding found.now result }
    ensures within { IfErr result (λ place. place < length found.now) }
{
    let journal = journal_of(found);
    let marker = marker_of(found);
    match foreign(journal, marker, found) {
        Some(place) => Err(place),
        None => Ok(Standing { journal, marker }),
    }
}

// The place of what is foreign.
fn foreign(journal: Option<Journal>, marker: Option<Marker>, found: &[Found]) -> Option<usize>
    requires journal { journal ≡ journal_standing found.now }
    requires marker { marker ≡ marker_standing found.now }
    ensures { result ≡ foreign_place found.now }
{
    let two = first_of_two_journals(found);
    let unfit = unfit(journal, found);
    let second = second_marker(found);
    let unmarked = unmarked(journal, marker, found);
    two.or(unfit.or(second.or(unmarked)))
}

/// The place of the marker where it counts more steps than these.
pub fn beyond(found: &[Found], steps: usize) -> Option<usize>
    ensures marker { result ≡ beyond_place found.now steps }
    ensures within { IfSome result (λ place. place < length found.now) }
{
    if counts_more(marker_of(found), steps as u64) {
        marker_place(found)
    } else {
        None
    }
}

// Whether the marker counts more steps than these.
fn counts_more(marker: Option<Marker>, steps: u64) -> bool
    ensures { result ≡ counts_more_than marker steps }
{
    match marker {
        Some(marker) => marker.number > steps,
        None => false,
    }
}

// The place of the first of several journals.
fn first_of_two_journals(found: &[Found]) -> Option<usize>
    ensures { result ≡ of_two_journals found.now }
{
    if second_journal(found).is_some() {
        journal_place(found)
    } else {
        None
    }
}

// The place of the second of several journals.
fn second_journal(found: &[Found]) -> Option<usize>
    ensures { result ≡ second_position is_journal_found found.now }
{
    let first = journal_place(found)?;
    let second = journal_place(&found[first + 1..])?;
    Some(first + 1 + second)
}

// The place of the second of several markers.
fn second_marker(found: &[Found]) -> Option<usize>
    ensures { result ≡ second_position is_marker_found found.now }
{
    let first = marker_place(found)?;
    let second = marker_place(&found[first + 1..])?;
    Some(first + 1 + second)
}

// The place of the first that isn't in the row of the journal that stands.
fn unfit(journal: Option<Journal>, found: &[Found]) -> Option<usize>
    requires { journal ≡ journal_standing found.now }
    ensures { result ≡ unfit_place found.now }
{
    unfit_in(journal, found)
}

// The place of the first that isn't in the row of this journal.
fn unfit_in(row: Option<Journal>, found: &[Found]) -> Option<usize>
    ensures { result ≡ position (λ f. not (fits_row row f)) found.now }
{
    found.iter().position(|f| !fits(row, f))
}

// The place of `plan` where no marker stands.
fn unmarked(journal: Option<Journal>, marker: Option<Marker>, found: &[Found]) -> Option<usize>
    requires journal { journal ≡ journal_standing found.now }
    requires marker { marker ≡ marker_standing found.now }
    ensures { result ≡ unmarked_place found.now }
{
    if journal == Some(Journal::Plan) && marker.is_none() {
        journal_place(found)
    } else {
        None
    }
}

// The place of the first journal.
fn journal_place(found: &[Found]) -> Option<usize>
    ensures place { result ≡ position is_journal_found found.now }
    ensures within { IfSome result (λ place. place < length found.now) }
{
    found.iter().position(|f| is_journal(f))
}

// The place of the first marker.
fn marker_place(found: &[Found]) -> Option<usize>
    ensures place { result ≡ position is_marker_found found.now }
    ensures within { IfSome result (λ place. place < length found.now) }
{
    found.iter().position(|f| is_marker(f))
}

// The first journal.
fn journal_of(found: &[Found]) -> Option<Journal>
    ensures { result ≡ journal_standing found.now }
{
    let place = journal_place(found)?;
    journal_in(found[place].name)
}

// The first marker.
fn marker_of(found: &[Found]) -> Option<Marker>
    ensures { result ≡ marker_standing found.now }
{
    let place = marker_place(found)?;
    marker_in(found[place].name)
}

fn is_journal(found: &Found) -> bool
    ensures { result ≡ is_journal_found found.now }
{
    journal_in(found.name).is_some()
}

fn is_marker(found: &Found) -> bool
    ensures { result ≡ is_marker_found found.now }
{
    marker_in(found.name).is_some()
}

fn journal_in(name: StagedName) -> Option<Journal>
    ensures { result ≡ journal_in_name name }
{
    match name {
        StagedName::Journal(journal) => Some(journal),
        StagedName::New | StagedName::Marker(_) | StagedName::Entry(_) | StagedName::Other => None,
    }
}

fn marker_in(name: StagedName) -> Option<Marker>
    ensures { result ≡ marker_in_name name }
{
    match name {
        StagedName::Marker(marker) => Some(marker),
        StagedName::New | StagedName::Journal(_) | StagedName::Entry(_) | StagedName::Other => None,
    }
}

// Whether one is in the row of this journal and has a kind that it may have.
fn fits(journal: Option<Journal>, found: &Found) -> bool
    ensures { result ≡ fits_row journal found.now }
{
    match found.name {
        StagedName::New => journal.is_none() && is_file(found.kind),
        StagedName::Journal(_) => is_file(found.kind),
        StagedName::Marker(marker) => allows_marker(journal, marker) && is_file(found.kind),
        StagedName::Entry(entry) => {
            allows_entry(journal, entry.role) && is_kind_for(entry.role, found.kind, found.is_empty)
        }
        StagedName::Other => false,
    }
}

// Whether the marker may stand beside this journal.
fn allows_marker(journal: Option<Journal>, marker: Marker) -> bool
    ensures { result ≡ marker_in_row journal marker }
{
    match (journal, marker.side) {
        (None, Side::At) => marker.number == 0,
        (None, Side::Back) => false,
        (Some(Journal::Plan), _) => true,
        (Some(Journal::Done), side) => side == Side::At,
        (Some(Journal::Undone), side) => side == Side::Back,
    }
}

// Whether entries of this role may stand beside this journal.
fn allows_entry(journal: Option<Journal>, role: Role) -> bool
    ensures { result ≡ entry_in_row journal role }
{
    match journal {
        None | Some(Journal::Undone) => role == Role::Fresh,
        Some(Journal::Plan) => true,
        Some(Journal::Done) => role == Role::Held,
    }
}

// Whether an entry of this role may be of this kind.
fn is_kind_for(role: Role, kind: Option<Kind>, is_empty: bool) -> bool
    ensures { result ≡ kind_for role kind is_empty }
{
    match role {
        Role::Fresh => is_file_or_link(kind),
        Role::Held => is_file_or_link(kind) || is_empty,
        Role::Temporary => true,
    }
}

fn is_file(kind: Option<Kind>) -> bool
    ensures { result ≡ is_file_kind kind }
{
    matches!(kind, Some(Kind::File))
}

fn is_file_or_link(kind: Option<Kind>) -> bool
    ensures { result ≡ is_file_or_link_kind kind }
{
    matches!(kind, Some(Kind::File) | Some(Kind::Link))
}
