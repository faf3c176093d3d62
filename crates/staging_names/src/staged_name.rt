// The names in the staging directory.
ghost use Rattle.std.specs.Prelude.{◌≡◌};
ghost use Rattle.std.specs.Option.{option_map};
ghost use Rattle.staging_names.specs.Names.{entry_of, journal_named, marker_of, name_read, numbered_read, rest_behind};

use crate::numbers::number_in;
use crate::{EntryName, Role};

/// A journal that was written whole, by its name.
#[derive(Clone, Copy, Debug, PartialEq, Eq)]
pub enum Journal {
    /// `plan`: steps are to be done or undone.
    Plan,
    /// `done`: all steps are done.
    Done,
    /// `undone`: no step is done.
    Undone,
}

/// The way on which a marker counts steps.
#[derive(Clone, Copy, Debug, PartialEq, Eq)]
pub enum Side {
    /// `at-K`: so many steps are done.
    At,
    /// `back-K`: so many are left on the way back.
    Back,
}

/// A file by whose name the steps are counted.
#[derive(Clone, Copy, Debug, PartialEq, Eq)]
pub struct Marker {
    /// The way.
    pub side: Side,
    /// The count. A greater one than 2^64 - 1 is given as that.
    pub number: u64,
}

/// What a name in the staging directory stands for.
#[derive(Clone, Copy, Debug, PartialEq, Eq)]
pub enum StagedName {
    /// `new`, the journal while it is written.
    New,
    /// A journal.
    Journal(Journal),
    /// A marker, whose number is in decimal without a leading zero.
    Marker(Marker),
    /// An entry, whose number is in decimal without a leading zero and below 2^32.
    Entry(EntryName),
    /// Nothing that a commit writes.
    Other,
}

/// What a name stands for.
#[tactic(auto, unfolding(crate::specs::Names::name_read, commit_steps::specs::Staging::new_journal))]
pub fn read_name(name: &str) -> StagedName
    ensures { result ≡ name_read name.now }
{
    if name == "new" {
        return StagedName::New;
    }
    match journal_of(name) {
        Some(journal) => StagedName::Journal(journal),
        None => read_numbered(name.as_bytes()),
    }
}

// The journal of a name.
#[tactic(auto, unfolding(commit_steps::specs::Staging::plan, commit_steps::specs::Staging::sealed, commit_steps::specs::Staging::undone))]
fn journal_of(name: &str) -> Option<Journal>
    ensures { result ≡ journal_named name.now }
{
    if name == "plan" {
        return Some(Journal::Plan);
    }
    if name == "done" {
        return Some(Journal::Done);
    }
    if name == "undone" {
        return Some(Journal::Undone);
    }
    None
}

// What a name with a number stands for.
fn read_numbered(name: &[u8]) -> StagedName
    ensures { result ≡ numbered_read name.now }
{
    if let Some(digits) = behind(b"at-", name) {
        return read_marker(Side::At, digits);
    }
    if let Some(digits) = behind(b"back-", name) {
        return read_marker(Side::Back, digits);
    }
    if let Some(digits) = behind(b"t", name) {
        return read_entry(Role::Temporary, digits);
    }
    if let Some(digits) = behind(b"h", name) {
        return read_entry(Role::Held, digits);
    }
    if let Some(digits) = behind(b"f", name) {
        return read_entry(Role::Fresh, digits);
    }
    StagedName::Other
}

// What is left of a name behind its first bytes, where it begins with these.
fn behind<'a>(front: &[u8], name: &'a [u8]) -> Option<&'a [u8]>
    ensures { option_map (λ r. r.now) result ≡ rest_behind front.now name.now }
{
    name.strip_prefix(front)
}

// The marker of this side whose number these digits write.
fn read_marker(side: Side, digits: &[u8]) -> StagedName
    ensures { result ≡ marker_of side digits.now }
{
    match number_in(digits) {
        Some(number) => StagedName::Marker(Marker { side, number }),
        None => StagedName::Other,
    }
}

// The entry of this role whose number these digits write.
fn read_entry(role: Role, digits: &[u8]) -> StagedName
    ensures { result ≡ entry_of role digits.now }
{
    match number_in(digits) {
        Some(number) if number <= u64::from(u32::MAX) => StagedName::Entry(EntryName {
            role,
            number: number as u32,
        }),
        _ => StagedName::Other,
    }
}
