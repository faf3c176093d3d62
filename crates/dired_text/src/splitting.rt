// Texts cut at an ASCII character.
ghost use Rattle.std.specs.Prelude.{◌≡◌, ◌≢◌, ◌<◌, ◌++◌, ◌∷◌, All, MatchOption};

// The text before its first separator and the text behind it, or None where it has none.
pub(crate) fn split_first(text: &str, separator: char) -> Option<(&str, &str)>
    requires { separator < 128 }
    ensures { MatchOption result (All (λ b. b ≢ separator) text.now)
        (λ x. (text.now ≡ x.0.now ++ separator ∷ x.1.now) × (All (λ b. b ≢ separator) x.0.now)) }
{
    text.split_once(separator)
}
