// Whether lines print.
ghost use Rattle.std.specs.Prelude.{◌≡◌, IfOk};
ghost use Rattle.std.specs.Option.{option_map};
ghost use Rattle.omit_rules.specs.Omitters.{rules_of};
ghost use Rattle.dired_text.specs.Resolve.{resolved};
ghost use Rattle.shown_lines.specs.Shown.{last_name as last_name_of, omits};
ghost use Rattle.shown_lines.specs.Outcomes.{outcome_of};

use dired_text::{Memory, Name, NameError, Path, resolve};
use listing_text::Line;
use mark_table::Marks;
use omit_rules::{Omitter, Rules};
use std::alloc::Global;

/// Whether a line prints, and its path where its name has one.
#[derive(Debug, Drop)]
pub(crate) enum Outcome {
    Omitted(Path),
    Shown(Path),
    /// It prints, and has no path.
    Unnamed,
}

// What tells of names whether they are omitted, where there are rules for that.
pub(crate) fn omitter_of<'r>(rules: Option<&'r Rules>) -> Result<Option<Omitter<'r>>, Memory>
    ensures { IfOk result (λ omitter. option_map rules_of omitter ≡
        option_map (λ rules. rules.now) rules.entry) }
{
    match rules {
        None => Ok(None),
        Some(rules) => Ok(Some(rules.omitter()?)),
    }
}

// The last of these names, and of none the empty text.
pub(crate) fn last_name(names: &[Name]) -> &str
    ensures { result.now ≡ last_name_of names.now }
{
    match names {
        [] => "",
        [.., last] => last.as_str(),
    }
}

// Whether the line of a path is omitted.
pub(crate) fn is_omitted(omitter: &mut Option<Omitter<'_>>, marks: &Marks, path: &Path) -> bool
    ensures omitted { result ≡ omits (option_map rules_of omitter.old) marks.now.marks path.now }
    ensures same { option_map rules_of omitter.new ≡ option_map rules_of omitter.old }
{
    match omitter {
        None => false,
        Some(omitter) => omitter.omits(last_name(path.names()), marks.get(path).is_some()),
    }
}

// Whether a line of this directory prints.
pub(crate) fn decide(
    alloc: Global,
    dir: &Path,
    line: &Line,
    marks: &Marks,
    omitter: &mut Option<Omitter<'_>>,
) -> Result<Outcome, Memory>
    ensures outcome { IfOk result (λ outcome. outcome ≡
        outcome_of (omits (option_map rules_of omitter.old) marks.now.marks)
        (resolved dir.now line.now.name)) }
    ensures same { option_map rules_of omitter.new ≡ option_map rules_of omitter.old }
{
    match resolve(alloc, dir, line.name.as_str()) {
        Err(NameError::Memory) => Err(Memory),
        Err(_) => Ok(Outcome::Unnamed),
        Ok(path) => {
            if is_omitted(omitter, marks, &path) {
                Ok(Outcome::Omitted(path))
            } else {
                Ok(Outcome::Shown(path))
            }
        }
    }
}
