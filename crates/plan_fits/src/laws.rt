// Laws over the definitions alone.
ghost use Rattle.plan_fits.specs.Laws.{PlansFit};

/// A plan of changes that can be made in a tree fits a commit from this tree: its steps lead to the edited tree with the entries that
/// the commit makes, those can be made, and what is put aside can be removed in the end, where the lines of the changes tell its
/// kind.
pub fn plans_fit()
    ensures { PlansFit }
{}
