// What the shell reads in quoted names.
ghost use Rattle.std.specs.Prelude.{◌≡◌, ◌≢◌, ◌∷◌, ◌++◌, [], All, List, Some, map, option_map, true, ℕ};
ghost use Rattle.shell_subst.specs.Commands.{in_a_row};
ghost use Rattle.shell_subst.specs.Quoting.{argument, quoted};
ghost use Rattle.shell_subst.specs.ShellWords.{ends_word, is_word_end, words};

use dired_text::Text;

/// A quoted name that isn't empty is one word to the shell: the name, with `./` in front where it begins with `-`.
pub fn quoted_name_is_one_word(name: &str)
    ensures { name.now ≢ [] → words (quoted name.now) ≡ Some (argument name.now ∷ []) }
{}

/// Names that aren't empty, quoted and with one space between, are one word each, in their order.
pub fn names_in_a_row_are_their_words(names: &[Text])
    ensures { All (λ name. name ≢ []) names.now → words (in_a_row names.now) ≡
        Some (map argument names.now) }
{}

/// A quoted name that isn't empty leaves the words around it as they are: at the start of a text, or behind a text with
/// no open quote and a byte that ends a word, where the text goes on with such a byte or ends.
pub fn quoted_name_leaves_other_words(front: &str, name: &str, after: &str)
    ensures first { name.now ≢ [] → is_word_end after.now ≡ true →
        words (quoted name.now ++ after.now) ≡
        option_map (λ more. argument name.now ∷ more) (words after.now) }
    ensures behind { (gap : ℕ) → (before : List (List ℕ)) → name.now ≢ [] → ends_word gap ≡ true →
        is_word_end after.now ≡ true → words front.now ≡ Some before →
        words (front.now ++ gap ∷ (quoted name.now ++ after.now)) ≡
        option_map (λ more. before ++ argument name.now ∷ more) (words after.now) }
{}
