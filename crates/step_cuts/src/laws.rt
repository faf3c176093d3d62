// Laws over the definitions alone.
ghost use Rattle.step_cuts.specs.Laws.{CutsAreWithin, CutsRise, LastCutIsTheEnd};

/// Cuts rise, none lies behind the last step, and where there is a step the last cut is the number of steps.
pub fn cuts_are_places()
    ensures within { CutsAreWithin }
    ensures rise { CutsRise }
    ensures last { LastCutIsTheEnd }
{}
