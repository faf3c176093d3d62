// Changes that can be made.
ghost use Rattle.std.specs.Prelude.{◌≡◌, IfOk, None};
ghost use Rattle.dired_text.specs.Paths.{Names};
ghost use Rattle.edit_words.specs.Rows.{rows as rows_in};
ghost use Rattle.edit_rules.specs.Tables.{IsTable};
ghost use Rattle.edit_words.specs.Found.{sight_in, IsClosed, IsCovered};
ghost use Rattle.edit_check.specs.Facts.{AreAsked-prop, AreMissing-prop, AreModes-prop, IsClosed-prop, IsCovered-prop, IsTable-prop};
ghost use Rattle.edit_words.specs.Refusals.{refusal};
ghost use Rattle.edit_words.specs.WellFormed.{AreAsked};
ghost use Rattle.edit_words.specs.Counting.{counts_of};
ghost use Rattle.edit_rules.specs.Plans.{AreMissing, AreModes, victims_of};
ghost use Rattle.edit_check.specs.Checks.{new_place_of};

use dired_text::{Memory, Path};
use edit_rules::{Table, place};
use edit_words::{Counts, Findings};
use std::alloc::Global;
use tree_core::{Changes, Confirmed};

/// Changes that were checked, with the confirmations, and with what was found at each path that was looked at. They can be made
/// in each tree that has these findings.
#[derive(Drop)]
pub struct Checked {
    pub(crate) alloc: Global,
    pub(crate) changes: Changes,
    pub(crate) confirmed: Confirmed,
    pub(crate) findings: Findings,
    pub(crate) table: Table,
    pub(crate) counts: Counts,
    pub(crate) victims: Vec<(u32, Path)>,
    pub(crate) missing: Vec<Path>,
    pub(crate) modes: Vec<(Path, u16, u16)>,
    ghost rows_are: { table.rows.items ≡ rows_in changes },
    ghost table_is: { IsTable table } by { IsTable-prop table },
    ghost covered: { IsCovered findings table.rows.items } by { IsCovered-prop findings table.rows.items },
    ghost closed: { IsClosed findings } by { IsClosed-prop findings },
    ghost asked: { AreAsked changes } by { AreAsked-prop changes },
    ghost taken: { refusal (sight_in findings) confirmed table.rows.items ≡ None },
    ghost counted: { counts ≡ counts_of (sight_in findings) table.rows.items },
    ghost replaced: { victims.items ≡ victims_of (sight_in findings) table.rows.items },
    ghost made: { AreMissing (sight_in findings) table.rows.items missing.items } by { AreMissing-prop (sight_in findings) table.rows.items missing.items },
    ghost set: { AreModes (sight_in findings) table.rows.items modes.items } by { AreModes-prop (sight_in findings) table.rows.items modes.items },
}

impl Checked {
    ghost use Rattle.edit_check.specs.StandFor.{changes_in, counts_in, found_in};

    /// The changes, in the order of their lines.
    pub fn changes(&self) -> &Changes
        ensures changes { result.now ≡ changes_in self.now }
        ensures asked { AreAsked result.now }
    {
        &self.changes
    }

    /// How much the changes change.
    pub fn counts(&self) -> Counts
        ensures { result ≡ counts_in self.now }
    {
        self.counts
    }

    /// What the changes replace: each path with the line that replaces it, in the order of the lines.
    pub fn victims(&self) -> &[(u32, Path)]
        ensures { result.now ≡ victims_of (found_in self.now) (rows_in (changes_in self.now)) }
    {
        &self.victims
    }

    /// The directories that have to be made above new paths and creations, each once, in the order of their paths.
    pub fn missing(&self) -> &[Path]
        ensures { AreMissing (found_in self.now) (rows_in (changes_in self.now)) result.now }
    {
        &self.missing
    }

    /// The modes that change: the new place of what has a new mode, its old mode and its new one, each at most 0o7777. Places of more
    /// names come first, and places of as many in the order of paths. Of the lines of one file number the least names the place.
    pub fn modes(&self) -> &[(Path, u16, u16)]
        ensures { AreModes (found_in self.now) (rows_in (changes_in self.now)) result.now }
    {
        &self.modes
    }

    /// The new place of a path of the tree, or None where it is replaced or removed, or has more than 4,095 bytes.
    pub fn new_place(&self, old: &Path) -> Result<Option<Path>, Memory>
        ensures { IfOk result (λ found. found ≡
            new_place_of (rows_in (changes_in self.now)) old.now) }
    {
        if self.table.is_victim(old) || self.table.is_removed(old) {
            return Ok(None);
        }
        let names = place(self.alloc, &self.table, old)?;
        Path::join(self.alloc, &names)
    }
}
