// Where a pattern matches.
ghost use Rattle.std.specs.Prelude.{◌≡◌, IfOk, is_some};
ghost use Rattle.regex.specs.Patterns.{find_str};
ghost use Rattle.regex.specs.Strings.{regex_pattern};

use dired_text::Memory;
use regex::{Matcher, Regex};
use std::alloc::Global;

/// What tells of many texts whether a pattern matches somewhere in them. One search serves them all.
#[derive(Drop)]
pub struct Finder<'r> {
    matcher: Matcher<'r>,
}

impl<'r> Finder<'r> {
    ghost use Rattle.emacs_regexp.specs.Finders.{pattern_of};

    /// What finds this pattern.
    pub fn new(alloc: Global, regex: &'r Regex) -> Result<Self, Memory>
        ensures { IfOk result (λ finder. pattern_of finder ≡ regex_pattern regex.now) }
    {
        let matcher = regex.matcher(alloc)?;
        Ok(Finder { matcher })
    }

    /// Whether the pattern matches somewhere in the text.
    pub fn found(&mut self, text: &str) -> bool
        ensures found { result ≡ is_some (find_str (pattern_of self.old) text.now 0) }
        ensures same { pattern_of self.new ≡ pattern_of self.old }
    {
        self.matcher.is_match(text)
    }
}

/// Whether the pattern matches somewhere in the text. For many texts take a `Finder`.
pub fn found(alloc: Global, regex: &Regex, text: &str) -> Result<bool, Memory>
    ensures { IfOk result (λ found. found ≡
        is_some (find_str (regex_pattern regex.now) text.now 0)) }
{
    Ok(Finder::new(alloc, regex)?.found(text))
}
