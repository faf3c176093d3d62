// Laws over the definitions alone.
ghost use Rattle.plan_laws.specs.Laws.{
  AllWaitAtFirst,
  HoldsLeadOn,
  MovesLeadOn,
  WaitsWellAfterCarry,
  WaitsWellAfterKnot,
  WaitsWellAtFirst,
};

/// Between two moves of changes that can be made, whatever still waits below a path keeps that path at its place, and each change
/// that is away has a spot of its own in the staging directory: so at first, after a ready change is carried out, and after one
/// is put aside where none is ready.
pub fn moves_keep_waiting_well()
    ensures first { WaitsWellAtFirst }
    ensures carried { WaitsWellAfterCarry }
    ensures put_aside { WaitsWellAfterKnot }
{}

/// From a tree between two moves each further move can be done where the ones before it have been, in whatever order ready changes
/// are carried out: its source stands, nothing stands at its new path, and above that is a directory. Each can be spelled by a
/// journal. Behind each the tree is the old one, placed by what was done so far, and behind the last no change waits.
pub fn moves_lead_on()
    ensures { MovesLeadOn }
{}

/// What changes replace or give up can be put aside, one after another, and behind that the old tree stands with these entries in the
/// staging directory.
pub fn holds_lead_on()
    ensures { HoldsLeadOn }
{}

/// Where what is replaced or given up stands in the staging directory, and the missing directories were made, all changes wait: what
/// holds between two moves holds there.
pub fn all_wait_at_first()
    ensures { AllWaitAtFirst }
{}
