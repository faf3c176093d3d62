// Laws of the definitions.
ghost use Rattle.std.specs.Prelude.{◌≡◌, ◌≤◌, ◌+◌, ℕ, List, length};
ghost use Rattle.commit_steps.specs.declared.step.Step.{Step};
ghost use Rattle.plan_moves.specs.Moves.{Moves, Spots};
ghost use Rattle.plan_moves.specs.Plan.{PlansAreCounted};
ghost use Rattle.plan_moves.specs.Waiting.{HasDifferentLines, Waiting, at_sources, knots};

/// In whatever order ready changes are carried out, the number of moves is that of the changes that wait and of the knots.
pub fn planned()
    ensures { (n : ℕ) (spots : Spots) (ws : List Waiting) (steps : List Step) →
        HasDifferentLines ws → Moves n spots ws steps → length steps ≡ length ws + knots ws }
{}

/// There are at most as many knots as changes that wait at their sources.
pub fn knots_at_most()
    ensures { (ws : List Waiting) → HasDifferentLines ws → knots ws ≤ length (at_sources ws) }
{}

/// Every plan of one list of changes has the same number of steps: what is replaced, what is given up, the directories that are made,
/// the changes with new paths, the entries that are made, the modes that change, and the knots.
pub fn plans_have_the_number_of_steps()
    ensures { PlansAreCounted }
{}
