// The patterns of `regex`.
ghost use Rattle.std.specs.Prelude.{◌≡◌};

use dired_text::{Patterns, PatternsError, read_pattern};
use regex::Regex;
use std::alloc::Global;

/// What builds the patterns of `regex`, and counts the texts that `regex` refuses.
#[derive(Drop)]
pub struct RegexPatterns<R: Drop> {
    rt: R,
    refusals: u64,
}

impl<R: Drop> RegexPatterns<R> {
    /// The patterns of this runtime. Nothing was refused yet.
    pub fn new(rt: R) -> Self
        ensures { result.refusals ≡ 0 }
    {
        RegexPatterns { rt, refusals: 0 }
    }
}

impl<R: Drop> Patterns for RegexPatterns<R> {
    ghost use Rattle.dired_text.specs.Patterns.{RefusesText};

    ghost refusals = { λ p. p.refusals };

    ghost MayFail = { λ _ _ text. RefusesText text };

    fn build(&mut self, alloc: Global, text: &str) -> Result<Regex, PatternsError> {
        match read_pattern(alloc, text) {
            Ok(pattern) => Ok(pattern),
            Err(PatternsError::Memory) => Err(PatternsError::Memory),
            Err(PatternsError::Refused) => {
                self.refusals = self.refusals.saturating_add(1);
                Err(PatternsError::Refused)
            }
        }
    }
}
