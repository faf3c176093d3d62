// Which steps a journal can spell.
ghost use Rattle.std.specs.Prelude.{◌≡◌, ◌↔◌, IsTrue};
ghost use Rattle.commit_steps.specs.Steps.{IsLawfulStep};
ghost use Rattle.commit_steps.specs.Tests.{is_outside as is_outside_path, is_entry_path as is_path_of_entry, is_step_path as is_path_of_step, are_apart as paths_apart, is_lawful_step};

use crate::Step;
use crate::entry_names::is_entry_name;
use dired_text::{Path, rest_below};

// The staging directory.
const STAGING: &str = ".wdired-commit";

/// Whether a journal can spell the step. Only a rename meets the staging directory `.wdired-commit`, and there only
/// `tN`, `hN` and `fN`, N in decimal without a leading zero and of 32 bits. A rename leads neither to its own path, nor
/// below or above it. Modes have at most the bits 0o7777 and differ. No path is the root.
pub fn is_lawful(step: &Step) -> bool
    ensures lawful { IsTrue result ↔ IsLawfulStep step.now }
    ensures test { result ≡ is_lawful_step step.now }
{
    passes(step)
}

fn passes(step: &Step) -> bool
    ensures { result ≡ is_lawful_step step.now }
{
    match step {
        Step::MakeDir(path) => is_outside(path),
        Step::Rename(from, to) => is_step_path(from) && is_step_path(to) && are_apart(from, to),
        Step::Mode(path, old, new) => {
            is_outside(path) && *old <= 0o7777 && *new <= 0o7777 && *old != *new
        }
    }
}

// Whether a path is neither the root nor at or below the staging directory.
#[tactic(auto, unfolding(crate::specs::Staging::staging_name))]
fn is_outside(path: &Path) -> bool
    ensures { result ≡ is_outside_path path.now }
{
    match path.names() {
        [] => false,
        [first, ..] => first.as_str() != STAGING,
    }
}

// Whether a path is that of an entry in the staging directory.
#[tactic(auto, unfolding(crate::specs::Staging::staging_name))]
fn is_entry_path(path: &Path) -> bool
    ensures { result ≡ is_path_of_entry path.now }
{
    match path.names() {
        [first, name] => first.as_str() == STAGING && is_entry_name(name.as_str()),
        _ => false,
    }
}

// Whether a rename can lead from or to a path.
fn is_step_path(path: &Path) -> bool
    ensures { result ≡ is_path_of_step path.now }
{
    is_outside(path) || is_entry_path(path)
}

// Whether two paths differ and neither is below the other.
fn are_apart(from: &Path, to: &Path) -> bool
    ensures { result ≡ paths_apart from.now to.now }
{
    rest_below(from.names(), to.names()).is_none() && rest_below(to.names(), from.names()).is_none()
}
