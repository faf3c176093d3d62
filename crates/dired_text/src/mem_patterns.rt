// What builds patterns, with a schedule of failures.
ghost use Rattle.std.specs.Prelude.{◌≡◌, IfOk, Err};
ghost use Rattle.dired_text.specs.MemOutside.{patterns_schedule, patterns_calls, patterns_refusals, PatternsMayFail, PatternsObey};
ghost use Rattle.dired_text.specs.Patterns.{IsPatternOf, CountsRefusals, BuildsAs};

use crate::{Memory, Patterns, PatternsError};
use regex::{Error, Regex};
use std::alloc::Global;

/// What builds patterns, with a schedule of calls that refuse. Another call refuses only where `regex` does, for
/// another cause than memory.
#[derive(Drop)]
pub struct MemPatterns {
    fail: Vec<u64>,
    calls: u64,
    refusals: u64,
}

impl MemPatterns {
    /// What has built no pattern. `fail` lists the calls that refuse, the first call being number 0.
    pub fn new(_alloc: Global, fail: Vec<u64>) -> Result<Self, Memory>
        ensures schedule { IfOk result (λ p. patterns_schedule p ≡ fail.items) }
        ensures calls { IfOk result (λ p. patterns_calls p ≡ 0) }
        ensures refusals { IfOk result (λ p. patterns_refusals p ≡ 0) }
    {
        Ok(MemPatterns {
            fail,
            calls: 0,
            refusals: 0,
        })
    }
}

impl Patterns for MemPatterns {
    ghost refusals = { patterns_refusals };

    ghost MayFail = { PatternsMayFail };

    fn build(&mut self, alloc: Global, text: &str) -> Result<Regex, PatternsError>
        ensures read { IfOk result (IsPatternOf text.now) }
        ensures count { CountsRefusals result (patterns_refusals self.old)
            (patterns_refusals self.new) }
        ensures may_fail { result ≡ Err PatternsError.Refused →
            PatternsMayFail self.old self.new text.now }
        ensures obeys { PatternsObey self.old self.new result }
    {
        let number = self.calls;
        self.calls = number.saturating_add(1);
        if self.fail.contains(&number) {
            self.refusals = self.refusals.saturating_add(1);
            return Err(PatternsError::Refused);
        }
        match read_pattern(alloc, text) {
            Ok(pattern) => Ok(pattern),
            Err(PatternsError::Refused) => {
                self.refusals = self.refusals.saturating_add(1);
                Err(PatternsError::Refused)
            }
            Err(PatternsError::Memory) => Err(PatternsError::Memory),
        }
    }
}

/// The pattern that `regex` reads from the text, under its default configuration.
///
/// # Errors
/// `Refused` where `regex` refuses the text for another cause than memory, and `Memory`.
pub fn read_pattern(alloc: Global, text: &str) -> Result<Regex, PatternsError>
    ensures { BuildsAs text.now result }
{
    match Regex::new(alloc, text) {
        Ok(pattern) => Ok(pattern),
        Err(Error::OutOfMemory) => Err(PatternsError::Memory),
        Err(_) => Err(PatternsError::Refused),
    }
}
