// Laws over the definitions alone.
ghost use Rattle.plan_journals.specs.Laws.{PlansCanBeSpelled, PlansFitAJournal};

/// The paths of a plan's steps have at most twice as many bytes as the paths of its changes, and 104 more for each change. Of changes
/// that aren't refused they are at most 268,435,456, the steps are fewer than 2^32, and their journal has at most 1,073,741,824 bytes.
pub fn plans_fit_a_journal()
    ensures { PlansFitAJournal }
{}

/// A journal can spell each step of every plan of checked changes, and takes all of them: each step is lawful, they are fewer than
/// 2^32, and their paths have at most 268,435,456 bytes together. That holds whatever the tree told.
pub fn plans_can_be_spelled()
    ensures { PlansCanBeSpelled }
{}
