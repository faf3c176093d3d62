// Steps, sorted by layer.
ghost use Rattle.std.specs.Prelude.{◌≡◌, ◌<◌, ◌≤◌, IfOk, IsPermutation, List, length};
ghost use Rattle.std.specs.List.{AllByRecursion};
ghost use Rattle.tree_core.specs.declared.node.Node.{Node};
ghost use Rattle.tree_core.specs.FileTree.{FileTree};
ghost use Rattle.commit_steps.specs.Steps.{HasPaths, IsLawfulStep};
ghost use Rattle.step_trees.specs.Groups.{groups};
ghost use Rattle.step_trees.specs.Leads.{Leads, start};
ghost use Rattle.step_layers.specs.Layers.{by_layer, layers};
ghost use Rattle.step_layers.specs.Order.{KeepsOrder, SetOnce};

use crate::layering::Layering;
use commit_steps::{Step, Steps};
use dired_text::Memory;
use std::alloc::Global;

// A list of at most so many steps has one step in each group.
const FEW_STEPS: usize = 8;

/// The steps layer by layer, and in each layer in their order. A step is in the first layer where no earlier one names a path that is
/// equal to, below or above one that it names, and else in the layer behind the last that has such a step. A list of at most eight
/// steps stays as it is. The time grows with the names of all paths, and not with the number of layers.
///
/// These are the same steps, and each two that name related paths stand as before. So they lead from an old tree to an edited one where
/// they led before, if no two of them set the mode of one file. More than eight lawful steps are cut into at most as many groups as they
/// have layers.
///
/// # Errors
/// Want of memory.
pub fn sort_by_layer(alloc: Global, steps: Steps) -> Result<Steps, Memory>
    ensures sorted { IfOk result (λ sorted. sorted ≡ by_layer steps) }
    ensures same { IfOk result (λ sorted. IsPermutation steps sorted) }
    ensures order { IfOk result (λ sorted. KeepsOrder steps sorted) }
    ensures leads { IfOk result (λ sorted. (old new : FileTree) (fresh : List Node)
        → Leads steps old new fresh → AllByRecursion HasPaths steps
        → SetOnce (start old fresh) steps → Leads sorted old new fresh) }
    ensures groups { IfOk result (λ sorted. AllByRecursion IsLawfulStep steps
        → 8 < length steps → length (groups sorted) ≤ length (layers steps)) }
{
    Ok(Steps::from_vec(sorted(alloc, steps.into_vec())?))
}

#[tactic(auto, using(crate::proofs::GroupLemmas::sorted_few))]
fn sorted(alloc: Global, steps: Vec<Step>) -> Result<Vec<Step>, Memory>
    ensures { IfOk result (λ sorted. sorted.items ≡ by_layer steps.items) }
{
    if steps.len() <= FEW_STEPS {
        return Ok(steps);
    }
    let mut layering = Layering::of(alloc, &steps)?;
    for step in steps {
        layering.take(alloc, step)?;
    }
    layering.joined(alloc)
}
