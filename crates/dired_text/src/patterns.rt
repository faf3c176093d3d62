// What builds the patterns of `regex`.
ghost use Rattle.std.specs.Prelude.{◌≡◌, List, ℕ, Option, Some, Err, IfOk};
ghost use Rattle.dired_text.specs.Patterns.{IsPatternOf, CountsRefusals};

use regex::Regex;
use std::alloc::Global;

/// Why no pattern was built.
#[derive(Clone, Copy, Debug, PartialEq, Eq)]
pub enum PatternsError {
    /// The pattern was refused.
    Refused,
    /// An allocation was refused.
    Memory,
}

/// What builds the patterns of `regex`.
pub trait Patterns {
    /// How many patterns were refused.
    ghost refusals: { Self → ℕ };

    /// Where it is known when a pattern may be refused, whether this text may be, between these states.
    ghost MayFail: { Self → Self → List ℕ → Type 0 };

    /// The pattern that `regex` reads from the text, under its default configuration.
    ///
    /// # Errors
    /// `Refused` where the pattern is refused, and `Memory`, which leaves the count of refusals.
    fn build(&mut self, alloc: Global, text: &str) -> Result<Regex, PatternsError>
        ensures read { IfOk result (IsPatternOf text.now) }
        ensures count { CountsRefusals result (refusals self.old) (refusals self.new) }
        ensures may_fail { result ≡ Err PatternsError.Refused →
            MayFail self.old self.new text.now };
}
