// The rules that settings give: which names are omitted, and which command is guessed.
ghost use Rattle.std.specs.Prelude.{◌≡◌, [], ◌∷◌, ◌++◌, IfOk, IfErr, OnOk};
ghost use Rattle.dired_text.specs.Patterns.{CountsRefusals};
ghost use Rattle.omit_rules.specs.Rules.{is_omitted, guess_for, matches_all as all_match, AreRulesOf, AreRulesFor, IsRuleOf, IsPatternFor, IsPatternForAny};
ghost use Rattle.omit_rules.specs.Omitters.{rules_of};
ghost use Rattle.omit_rules.specs.Values.{no_values, values_of};

use crate::settings::Guess;
use crate::{Omitter, Settings};
use dired_text::{Memory, Patterns, PatternsError, Text};
use emacs_regexp::{Ast, spell};
use regex::Regex;
use std::alloc::Global;

/// The rules that settings give, with their patterns built.
#[derive(Drop)]
pub struct Rules {
    alloc: Global,
    pub(crate) omit_regexp: Option<Regex>,
    pub(crate) omit_extensions: Vec<Text>,
    guesses: Vec<GuessRule>,
}

// The command for files whose names all match.
#[derive(Drop)]
struct GuessRule {
    regexp: Regex,
    command: Text,
}

impl Rules {
    /// The rules of some settings.
    ///
    /// # Errors
    /// `Refused` where a pattern is refused, and then no other pattern is built.
    pub fn new<P: Patterns>(
        alloc: Global,
        patterns: &mut P,
        settings: &Settings,
    ) -> Result<Self, PatternsError>
        ensures rules { IfOk result (AreRulesOf (values_of settings.now)) }
        ensures count { CountsRefusals result (P.refusals patterns.old) (P.refusals patterns.new) }
    {
        let omit_extensions = copy_texts(alloc, &settings.omit_extensions).map_err(
            |_| PatternsError::Memory,
        )?;
        let omit_regexp = build_any(alloc, patterns, &settings.omit_regexp)?;
        let guesses = build_guesses(alloc, patterns, &settings.guesses)?;
        Ok(Rules {
            alloc,
            omit_regexp,
            omit_extensions,
            guesses,
        })
    }

    /// The rules of no settings: no name is omitted, and no command is guessed. It takes no memory.
    pub fn none(alloc: Global) -> Self
        ensures { AreRulesOf no_values result }
    {
        Rules {
            alloc,
            omit_regexp: None,
            omit_extensions: Vec::new(alloc),
            guesses: Vec::new(alloc),
        }
    }

    /// Whether the line of a file with this last name is omitted: it has no mark, and the name matches the regexp or ends
    /// with an extension that is not empty. For many names take `omitter`.
    pub fn omitted(&self, name: &str, marked: bool) -> Result<bool, Memory>
        ensures { IfOk result (λ omitted. omitted ≡ is_omitted self.now name.now marked) }
    {
        let mut omitter = self.omitter()?;
        Ok(omitter.omits(name, marked))
    }

    /// What tells of many names whether they are omitted.
    pub fn omitter(&self) -> Result<Omitter<'_>, Memory>
        ensures { IfOk result (λ omitter. rules_of omitter ≡ self.now) }
    {
        Omitter::new(self.alloc, self)
    }

    /// The command of the first guess whose regexp matches each of these last names; None where none does.
    pub fn guess(&self, names: &[Text]) -> Result<Option<Text>, Memory>
        ensures { IfOk result (λ command. command ≡ guess_for self.now names.now) }
    {
        for guess in &self.guesses {
            if guess.matches_all(self.alloc, names)? {
                return Ok(Some(guess.command.copy()?));
            }
        }
        Ok(None)
    }
}

impl GuessRule {
    // Whether each of these names matches.
    fn matches_all(&self, alloc: Global, names: &[Text]) -> Result<bool, Memory>
        ensures { IfOk result (λ all. all ≡ all_match names.now self.now) }
    {
        let mut matcher = self.regexp.matcher(alloc)?;
        for name in names {
            if !matcher.is_match(name.as_str()) {
                return Ok(false);
            }
        }
        Ok(true)
    }
}

fn copy_texts(alloc: Global, texts: &[Text]) -> Result<Vec<Text>, Memory>
    ensures { IfOk result (λ v. v.items ≡ texts.now) }
{
    let mut copies = Vec::with_capacity(alloc, texts.len())?;
    for text in texts {
        copies.push(text.copy()?)?;
    }
    Ok(copies)
}

// ---- patterns

fn build_any<P: Patterns>(
    alloc: Global,
    patterns: &mut P,
    regexp: &Option<Ast>,
) -> Result<Option<Regex>, PatternsError>
    ensures pattern { IfOk result (IsPatternForAny regexp.now) }
    ensures count { CountsRefusals result (P.refusals patterns.old) (P.refusals patterns.new) }
{
    match regexp {
        Some(regexp) => Ok(Some(build(alloc, patterns, regexp)?)),
        None => Ok(None),
    }
}

fn build<P: Patterns>(alloc: Global, patterns: &mut P, regexp: &Ast) -> Result<Regex, PatternsError>
    ensures pattern { IfOk result (IsPatternFor regexp.now) }
    ensures count { CountsRefusals result (P.refusals patterns.old) (P.refusals patterns.new) }
{
    match spell(alloc, regexp) {
        Ok(text) => patterns.build(alloc, text.as_str()),
        Err(Memory) => Err(PatternsError::Memory),
    }
}

fn build_guesses<P: Patterns>(
    alloc: Global,
    patterns: &mut P,
    guesses: &[Guess],
) -> Result<Vec<GuessRule>, PatternsError>
    ensures rules { IfOk result (λ rules. AreRulesFor guesses.now rules.items) }
    ensures count { CountsRefusals result (P.refusals patterns.old) (P.refusals patterns.new) }
{
    let mut rules = Vec::new(alloc);
    for guess in guesses {
        let rule = build_guess(alloc, patterns, guess)?;
        push_rule(&mut rules, rule)?;
    }
    Ok(rules)
}

fn push_rule(rules: &mut Vec<GuessRule>, rule: GuessRule) -> Result<(), PatternsError>
    ensures pushed { OnOk result (rules.new.items ≡ rules.old.items ++ rule ∷ []) }
    ensures memory { IfErr result (λ error. error ≡ PatternsError.Memory) }
{
    match rules.push(rule) {
        Ok(()) => Ok(()),
        Err(_) => Err(PatternsError::Memory),
    }
}

fn build_guess<P: Patterns>(
    alloc: Global,
    patterns: &mut P,
    guess: &Guess,
) -> Result<GuessRule, PatternsError>
    ensures rule { IfOk result (IsRuleOf guess.now) }
    ensures count { CountsRefusals result (P.refusals patterns.old) (P.refusals patterns.new) }
{
    let regexp = build(alloc, patterns, &guess.regexp)?;
    let command = guess.command.copy().map_err(|_| PatternsError::Memory)?;
    Ok(GuessRule { regexp, command })
}
