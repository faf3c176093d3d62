// Laws over the definitions alone.
ghost use Rattle.recovery_courses.specs.Laws.{
  FollowersComeHome,
  HaltsLeadBack,
  HaltsLeadForward,
  SealsLeadForward,
  TurnedLeadBack,
  UndoneLeadBack,
  UnplannedLeadBack,
  UnstagedLeadBack,
};

/// From `at-m`, whichever of the steps from m to the next cut are done, the course forward finds nothing strange, and its calls lead
/// safely to the edited tree: a crash at any moment leaves an interrupted tree, and behind them nothing is pending. It needs the entries
/// that stand in the staging directory and those that a path of the steps names, in order.
pub fn halts_lead_forward()
    ensures { HaltsLeadForward }
{}

/// The course back from `at-m` leads to the old tree in the same way.
pub fn halts_lead_back()
    ensures { HaltsLeadBack }
{}

/// And so does the course from `back-m`, whichever of the steps from the last cut to m are done.
pub fn turned_lead_back()
    ensures { TurnedLeadBack }
{}

/// Where `done` stands, what else stands in the staging directory is removed, in whatever order, and then that and the directory, which
/// leads to the edited tree. Where `undone` stands the same leads to the old tree.
pub fn closings_lead_home()
    ensures sealed { SealsLeadForward }
    ensures undone { UndoneLeadBack }
{}

/// Without a journal the names that are read are removed, and then the directory; where that doesn't stand a sync does it.
pub fn clearings_lead_home()
    ensures names { UnplannedLeadBack }
    ensures absent { UnstagedLeadBack }
{}

/// Code that follows a course that leads home, behind a sync: whichever call or look of it fails, a crash at any moment leaves an
/// interrupted tree. Where none fails nothing is strange, the target stands, and nothing is pending.
pub fn followers_come_home()
    ensures { FollowersComeHome }
{}
