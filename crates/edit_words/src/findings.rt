// What looks have found.
ghost use Rattle.std.specs.Prelude.{◌≡◌, ◌⊎◌, OnOk, Some, None, Bool, is_some};
ghost use Rattle.std.specs.BTreeMap.{get};
ghost use Rattle.std.specs.Option.{option_map};
ghost use Rattle.dired_text.specs.Paths.{Names, path_cmp};
ghost use Rattle.edit_words.specs.Found.{sight_in, HasGrown, HasOneMore};
ghost use Rattle.edit_words.specs.Sight.{is_dir as is_dir_seen, is_other as is_other_seen, number_of};

use crate::seen::Seen;
use dired_text::{Memory, Path};
use std::alloc::Global;
use std::collections::BTreeMap;

/// What looks have found at each path.
#[derive(Drop)]
pub struct Findings {
    pub found: BTreeMap<Path, Option<Seen>>,
    /// Whether nothing stands directly below a directory, where that was asked.
    pub empty: BTreeMap<Path, bool>,
}

impl Findings {
    /// No findings.
    pub fn new(alloc: Global) -> Self
        ensures found { (p : Names) → get path_cmp result.found p ≡ None }
        ensures empty { (p : Names) → get path_cmp result.empty p ≡ None }
    {
        Findings {
            found: BTreeMap::new(alloc),
            empty: BTreeMap::new(alloc),
        }
    }

    /// Notes what was found at a path that wasn't looked at before.
    pub fn note(&mut self, path: &Path, found: Option<Seen>) -> Result<(), Memory>
        requires unseen { get path_cmp self.old.found path.now ≡ None }
        ensures noted { OnOk result (get path_cmp self.new.found path.now ≡ Some found) }
        ensures grown { HasGrown self.old self.new }
        ensures one { HasOneMore path.now found self.old self.new }
    {
        self.found.insert(path.copy()?, found)?;
        Ok(())
    }

    /// Notes whether a directory is empty, where that wasn't asked before.
    pub fn note_empty(&mut self, path: &Path, empty: bool) -> Result<(), Memory>
        requires unseen { get path_cmp self.old.empty path.now ≡ None }
        ensures noted { OnOk result (get path_cmp self.new.empty path.now ≡ Some empty) }
        ensures grown { HasGrown self.old self.new }
        ensures found { self.new.found ≡ self.old.found }
        ensures one { (q : Names) (b : Bool) → get path_cmp self.new.empty q ≡ Some b →
            ((q ≡ path.now) × (b ≡ empty)) ⊎ (get path_cmp self.old.empty q ≡ Some b) }
    {
        self.empty.insert(path.copy()?, empty)?;
        Ok(())
    }

    /// What was found at a path. Nothing stands where nobody looked.
    pub fn at(&self, path: &Path) -> Option<&Seen>
        ensures { option_map (λ s. s.now) result ≡ (sight_in self.now).at path.now }
    {
        match self.found.get(path) {
            Some(Some(seen)) => Some(seen),
            _ => None,
        }
    }

    /// Whether something was found at a path.
    pub fn stands(&self, path: &Path) -> bool
        ensures { result ≡ is_some ((sight_in self.now).at path.now) }
    {
        self.at(path).is_some()
    }

    /// Whether a directory was found at a path.
    pub fn is_dir(&self, path: &Path) -> bool
        ensures { result ≡ is_dir_seen ((sight_in self.now).at path.now) }
    {
        matches!(self.at(path), Some(Seen::Dir { .. }))
    }

    /// Whether something other than a directory was found at a path.
    pub fn is_other(&self, path: &Path) -> bool
        ensures { result ≡ is_other_seen ((sight_in self.now).at path.now) }
    {
        matches!(self.at(path), Some(Seen::Link { .. } | Seen::File { .. }))
    }

    /// The number of the file that was found at a path.
    pub fn file_number(&self, path: &Path) -> Option<u64>
        ensures { result ≡ number_of ((sight_in self.now).at path.now) }
    {
        match self.at(path) {
            Some(Seen::File { number, .. }) => Some(*number),
            _ => None,
        }
    }

    /// Whether nothing was found directly below a directory.
    pub fn is_empty(&self, path: &Path) -> bool
        ensures { result ≡ (sight_in self.now).is_empty path.now }
    {
        self.empty.get(path).copied().unwrap_or(false)
    }
}
