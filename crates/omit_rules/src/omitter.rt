// What tells of many names whether they are omitted.
ghost use Rattle.std.specs.Prelude.{◌≡◌, IfOk};
ghost use Rattle.std.specs.List.{list_any};
ghost use Rattle.omit_rules.specs.Omitting.{Searches};
ghost use Rattle.omit_rules.specs.Rules.{is_omitted, matches_any, has_extension as has_extension_by};

use crate::Rules;
use dired_text::{Memory, Text};
use regex::{Matcher, Regex};
use std::alloc::Global;

/// What tells of many names whether they are omitted by some rules. One search of the regexp serves them all.
#[derive(Drop)]
pub struct Omitter<'r> {
    rules: &'r Rules,
    matcher: Option<Matcher<'r>>,
    ghost searches: { Searches matcher rules.now.omit_regexp },
}

impl<'r> Omitter<'r> {
    ghost use Rattle.omit_rules.specs.Omitters.{rules_of};

    pub(crate) fn new(alloc: Global, rules: &'r Rules) -> Result<Self, Memory>
        ensures { IfOk result (λ omitter. rules_of omitter ≡ rules.now) }
    {
        let matcher = matcher_of(alloc, &rules.omit_regexp)?;
        Ok(Omitter { rules, matcher })
    }

    /// Whether the line of a file with this last name is omitted: it has no mark, and the name matches the regexp or ends
    /// with an extension that is not empty.
    pub fn omits(&mut self, name: &str, marked: bool) -> bool
        ensures omitted { result ≡ is_omitted (rules_of self.old) name.now marked }
        ensures same { rules_of self.new ≡ rules_of self.old }
    {
        if marked {
            return false;
        }
        if has_any_extension(name, &self.rules.omit_extensions) {
            return true;
        }
        match &mut self.matcher {
            Some(matcher) => matcher.is_match(name),
            None => false,
        }
    }
}

fn matcher_of<'r>(alloc: Global, regexp: &'r Option<Regex>) -> Result<Option<Matcher<'r>>, Memory>
    ensures { IfOk result (λ matcher. Searches matcher regexp.now) }
{
    match regexp {
        Some(regexp) => Ok(Some(regexp.matcher(alloc)?)),
        None => Ok(None),
    }
}

fn has_any_extension(name: &str, extensions: &[Text]) -> bool
    ensures { result ≡ list_any (has_extension_by name.now) extensions.now }
{
    extensions
        .iter()
        .any(|extension| has_extension(name, extension.as_str()))
}

// Whether a name ends with an extension. The empty extension omits nothing.
fn has_extension(name: &str, extension: &str) -> bool
    ensures { result ≡ has_extension_by name.now extension.now }
{
    !extension.is_empty() && name.as_bytes().ends_with(extension.as_bytes())
}
