// What the calls leave at each path, and which paths are those of backups.
ghost use Rattle.std.specs.Prelude.{◌≡◌, ◌++◌, [], ◌∷◌, ◌^◌, ◌<◌, ◌≤◌, ℕ, List, None, Some, true, false, if◌then◌else◌};
ghost use Rattle.std.specs.FinMap.{get};
ghost use Rattle.std.specs.List.{list_all};
ghost use Rattle.dired_text.specs.Paths.{Names, joined};
ghost use Rattle.mark_table.specs.declared.version.Version.{Version as version};
ghost use Rattle.mark_table.specs.Excess.{backups, path_of};
ghost use Rattle.mark_table.specs.PathMarks.{cleared, flipped, is_among, other_than, replaced, toggled, with_new};
ghost use Rattle.mark_table.specs.Moves.{Moves, destinations, moved_marks, sources};
ghost use Rattle.mark_table.specs.Tables.{saved, undone};
ghost use Rattle.mark_table.specs.Versions.{has_no_slash, version_in, version_text};

use crate::Marks;
use dired_text::Path;

/// After `toggle`, each shown path has the mark that it had, with `*` and none changed for one another, however often it
/// is shown; every other path has the mark that it had.
pub fn toggled_at_each_path(marks: &Marks, shown: &[Path])
    ensures { (p : Names) → get (toggled shown.now marks.now.marks) p ≡
        (if is_among p shown.now then flipped (get marks.now.marks p) else get marks.now.marks p) }
{}

/// After `clear_mark` each path that had this mark has none; after `replace` each path that had the one has the other.
/// Every other path has what it had.
pub fn changed_at_each_path(marks: &Marks, old: u8, new: u8)
    ensures clear_mark { (p : Names) → get (cleared old marks.now.marks) p ≡
        other_than old (get marks.now.marks p) }
    ensures replace { (p : Names) → get (replaced old new marks.now.marks) p ≡
        with_new old new (get marks.now.marks p) }
{}

/// After `moved`, the second path of a pair has what its first path had before, whatever the other pairs are, where no
/// later pair has the same second path. A first path that is no second path has no mark, and a path that is neither has
/// what it had.
pub fn moved_at_each_path(marks: &Marks, moves: &[(Path, Path)])
    ensures arrived { (front back : Moves) (e : Names × Names) → moves.now ≡ front ++ e ∷ back →
        is_among e.1 (destinations back) ≡ false → get (moved_marks moves.now marks.now.marks) e.1 ≡
        get marks.now.marks e.0 }
    ensures departed { (p : Names) → is_among p (sources moves.now) ≡ true →
        is_among p (destinations moves.now) ≡ false →
        get (moved_marks moves.now marks.now.marks) p ≡ None }
    ensures stayed { (p : Names) → is_among p (sources moves.now) ≡ false →
        is_among p (destinations moves.now) ≡ false →
        get (moved_marks moves.now marks.now.marks) p ≡ get marks.now.marks p }
{}

/// `undo` after `save` leaves what was before.
pub fn undo_takes_save_back(marks: &Marks)
    ensures { undone (saved marks.now) ≡ marks.now }
{}

/// A path is that of a numeric backup exactly where its text ends with `.~N~`, N from 1 in decimal, without a leading
/// zero and of at most 18 digits.
pub fn backup_ends_with_its_number(text: &[u8])
    ensures read { (s : List ℕ) (n : ℕ) → version_in text.now ≡ Some (s, n) →
        (text.now ≡ s ++ version_text n) × (1 ≤ n) × (n < 10 ^ 18) }
    ensures written { (s : List ℕ) (n : ℕ) → 1 ≤ n → n < 10 ^ 18 → text.now ≡ s ++ version_text n →
        version_in text.now ≡ Some (s, n) }
{}

/// The bytes before `.~N~` in the path of a numeric backup are those of BASE in the backup's directory, and they tell
/// that directory and that BASE, which may be empty.
pub fn stem_tells_directory_and_base(number: u64)
    ensures stem { (d : Names) (base : List ℕ) → 1 ≤ number → number < 10 ^ 18 →
        version_in (joined (d ++ (base ++ version_text number) ∷ [])) ≡
        Some (joined (d ++ base ∷ []), number) }
    ensures apart { (d e : Names) (b c : List ℕ) → list_all has_no_slash (d ++ b ∷ []) ≡ true →
        list_all has_no_slash (e ++ c ∷ []) ≡ true → joined (d ++ b ∷ []) ≡ joined (e ++ c ∷ []) →
        (d ≡ e) × (b ≡ c) }
{}

/// Among the backups of shown paths stands, for each version, the last shown path of that version, and no other.
pub fn backups_are_the_shown_ones(shown: &[Path])
    ensures { (v : version) → get (backups shown.now) v ≡ path_of shown.now v }
{}
