// Laws over the definitions alone.
ghost use Rattle.plan_ends.specs.Laws.{
  EachStartsWell,
  FirstStepsLead,
  ModesLead,
  MovesEndInPlace,
  MovesRun,
  PlansLead,
};

/// The old tree with the entries that are made in its staging directory is a tree, in which all else stands as before.
pub fn each_starts_well()
    ensures { EachStartsWell }
{}

/// From the old tree with the entries that are made in its staging directory what is replaced or given up can be put aside, and then
/// the missing directories can be made. Then all changes wait.
pub fn first_steps_lead()
    ensures { FirstStepsLead }
{}

/// From between two moves all further moves can be done one behind the other, whatever the order in which ready changes are carried
/// out, and each tree on the way has only entries of its kinds in the staging directory. Then no change waits.
pub fn moves_run()
    ensures { MovesRun }
{}

/// When no change waits any longer, the tree without the staging directory is the old one placed as in the edited tree, but for the
/// modes; and the staging directory holds only what is put aside.
pub fn moves_end_in_place()
    ensures { MovesEndInPlace }
{}

/// From the end of the moves the steps that change modes can be done one behind the other, no two of them set the mode of one file,
/// and the last tree is the edited one but for the staging directory, which holds only what is put aside.
pub fn modes_lead()
    ensures { ModesLead }
{}

/// The steps of a plan lead from the old tree to the edited one: each is lawful and before in its turn, each tree on the way has only
/// entries of their kinds in the staging directory, and the last one without that directory is the edited tree.
pub fn plans_lead()
    ensures { PlansLead }
{}
