// The places at which a list of steps is cut into groups.
ghost use Rattle.std.specs.Prelude.{◌≡◌, [], ◌∷◌, IfOk};
ghost use Rattle.step_cuts.specs.Cuts.{ends_of};
ghost use Rattle.step_trees.specs.Groups.{groups, grow, longest, singly};

use crate::named_paths::NamedPaths;
use commit_steps::Step;
use dired_text::Memory;
use std::alloc::Global;

// A list of at most so many steps has one step in each group.
const FEW_STEPS: usize = 8;

/// Where the groups of these steps end: the places (numbers of steps, from the first on) of all cuts but 0. A list of at most eight
/// steps has one step in each group. In a longer one each group goes on as long as none of the paths that its steps name is equal to
/// or below another.
///
/// # Errors
/// Want of memory.
pub fn cuts(alloc: Global, steps: &[Step]) -> Result<Vec<usize>, Memory>
    ensures { IfOk result (λ ends. ends.items ≡ ends_of 0 (groups steps.now)) }
{
    if steps.len() <= FEW_STEPS {
        each_place(alloc, steps)
    } else {
        longest_cuts(alloc, steps)
    }
}

// Where the groups end if each has one step.
fn each_place(alloc: Global, steps: &[Step]) -> Result<Vec<usize>, Memory>
    ensures { IfOk result (λ ends. ends.items ≡ ends_of 0 (singly steps.now)) }
{
    let mut ends = Vec::new(alloc);
    for place in 0..steps.len() {
        ends.push(place + 1)?;
    }
    Ok(ends)
}

// Where the groups end if each goes on as long as it can.
fn longest_cuts(alloc: Global, steps: &[Step]) -> Result<Vec<usize>, Memory>
    ensures { IfOk result (λ ends. ends.items ≡ ends_of 0 (longest steps.now)) }
{
    match steps {
        [] => Ok(Vec::new(alloc)),
        [first, rest @ ..] => cuts_behind(alloc, first, rest),
    }
}

// Where the groups of a step and those behind it end.
fn cuts_behind(alloc: Global, first: &Step, rest: &[Step]) -> Result<Vec<usize>, Memory>
    ensures { IfOk result (λ ends. ends.items ≡ ends_of 0 (grow (first.now ∷ []) rest.now)) }
{
    let mut ends = Vec::new(alloc);
    let mut group = NamedPaths::of(alloc, first)?;
    for (place, step) in rest.iter().enumerate() {
        group.add(alloc, step)?;
        if !group.are_apart() {
            ends.push(place + 1)?;
            group = NamedPaths::of(alloc, step)?;
        }
    }
    ends.push(rest.len() + 1)?;
    Ok(ends)
}
