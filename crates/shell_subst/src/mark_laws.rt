// Where the marks of a command text stand, and what they are replaced by.
ghost use Rattle.std.specs.Prelude.{◌≡◌, ◌⊎◌, ◌↔◌, ◌∷◌, ◌++◌, false, true};
ghost use Rattle.std.specs.List.{list_any};
ghost use Rattle.shell_subst.specs.Commands.{filled, is_all_names, is_blank_next, is_one_name, pieces};
ghost use Rattle.shell_subst.specs.Marks.{StandsAlone, StandsInBackquotes, is_blank_last};

/// A command text has a mark for all names exactly where a `*` stands alone in it, and a mark for one name exactly where
/// a `?` stands alone or between backquotes.
pub fn marks_stand_alone(text: &str)
    ensures all { (list_any is_all_names (pieces text.now) ≡ true) ↔ StandsAlone true 42 text.now }
    ensures one { (list_any is_one_name (pieces text.now) ≡ true) ↔
        (StandsAlone true 63 text.now ⊎ StandsInBackquotes text.now) }
{}

/// A `*` or a `?` that stands alone between two parts of a command text is replaced, and the parts are filled each by
/// itself. A part without marks stays as it is.
pub fn marks_are_replaced(before: &str, after: &str, shown: &str)
    ensures star { is_blank_last true before.now ≡ true → is_blank_next after.now ≡ true →
        filled shown.now (before.now ++ 42 ∷ after.now) ≡ filled shown.now before.now
        ++ (shown.now ++ filled shown.now after.now) }
    ensures question { is_blank_last true before.now ≡ true → is_blank_next after.now ≡ true →
        filled shown.now (before.now ++ 63 ∷ after.now) ≡ filled shown.now before.now
        ++ (shown.now ++ filled shown.now after.now) }
    ensures rest { list_any is_all_names (pieces before.now) ≡ false →
        list_any is_one_name (pieces before.now) ≡ false → filled shown.now before.now ≡
        before.now }
{}
