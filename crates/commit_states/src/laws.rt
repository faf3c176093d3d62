// Laws over the definitions alone.
ghost use Rattle.commit_states.specs.Laws.{
  CommitsAreSafe,
  CommitsCanFit,
  FailedGroupsHalt,
  FailedSealsGoForward,
  FailedSealsHalt,
  FailedSealsTellPlaces,
  FailedStagingsName,
  FailedStagingsStop,
  FailedStagingsTellPlaces,
  FailedStepsHalt,
  FailedStepsTellPlaces,
  HaltsGoBack,
  HaltsGoForward,
  HaltsShowNoSeal,
  HaltsShowOneMarker,
  InterruptedTreesRecover,
  SealedReadsNew,
  SealsGoForward,
  TurnedGoBack,
  UncleanReadsNew,
  UndoneGoBack,
  UnplannedGoBack,
  UnplannedShowNoJournal,
  UnstagedGoBack,
  WrittenAreInterrupted,
};
ghost use Rattle.commit_states.specs.Phases.{JournalsTell, RowsExclude};
ghost use Rattle.commit_states.specs.Reads.{
  EarlyItemsAreOnce,
  EarlyNamesAreNoDirectories,
  EarlyNamesSuffice,
  FreshEntriesSuffice,
  FreshNamesSuffice,
  HeldNamesSuffice,
  NamesAreRead,
  OtherNamesAreRead,
  SealedNamesSuffice,
  UndoneNamesSuffice,
};

/// What stands tells the row of the table and the place of the marker, and where a journal stands the steps, whatever the commit was.
pub fn rows_exclude_one_another()
    ensures rows { RowsExclude }
    ensures steps { JournalsTell }
{}

/// A commit whose steps, fresh entries, journal and held entries fit the tree, which is durable: its calls can be done one after
/// another; a crash at any moment leaves an interrupted tree, also where a call fails and is the last; behind them the edited tree
/// stands, and nothing is pending. What it asks for can be met.
pub fn commits_are_safe()
    ensures safe { CommitsAreSafe }
    ensures can_fit { CommitsCanFit }
{}

/// Where a call of a commit failed. While the staging directory is filled: no journal has its name yet, in the tree that reads and
/// in whatever a crash leaves, or `at-0` stands and no step is done. Among the steps and their markers: `plan` and a marker `at-m`
/// stand, and any of the steps from m to the next cut are done. At the seal or behind it: whatever a crash leaves, recovery forward
/// ends with the edited tree.
pub fn failed_calls_leave_rows()
    ensures staging { FailedStagingsStop }
    ensures steps { FailedStepsHalt }
    ensures seal { FailedSealsGoForward }
{}

/// Which marker stands. Where a call of a group failed: that of the place before the group, or of the one behind it. Where the seal
/// failed: the last one, unless `done` stands. Where a marker stands no other does, and nothing under `done`, so that one look tells.
pub fn failed_calls_tell_markers()
    ensures groups { FailedGroupsHalt }
    ensures seal { FailedSealsHalt }
    ensures no_seal { HaltsShowNoSeal }
    ensures one_marker { HaltsShowOneMarker }
{}

/// The tree before a call that failed tells where the commit was. In the staging the
/// old tree stood, or the staging directory with `plan` or without a journal. Among the groups `plan` stood. At the seal or behind it `done`
/// stood, or no journal and the edited tree, or the call is the seal itself, and `plan` and the last marker stood.
pub fn failed_calls_tell_places()
    ensures staging { FailedStagingsTellPlaces }
    ensures groups { FailedStepsTellPlaces }
    ensures seal { FailedSealsTellPlaces }
{}

/// Where a call behind the seal failed, or the seal itself and `done` stands, the commit is done but for its own files: the tree that
/// reads is the edited one beside the staging directory, and recovery ends with the edited tree in either direction.
pub fn unclean_ends_read_new()
    ensures cleaning { UncleanReadsNew }
    ensures seal { SealedReadsNew }
{}

/// Where a call of the staging failed and `plan` doesn't stand: whatever stands in the staging directory is the first marker, a
/// fresh entry of the commit, or the journal under its first name. These names are once each, and none is a directory's. One look
/// tells: nothing stands under `plan` where no journal has its name yet.
pub fn failed_stagings_tell_names()
    ensures names { FailedStagingsName }
    ensures once { EarlyItemsAreOnce }
    ensures kinds { EarlyNamesAreNoDirectories }
    ensures no_journal { UnplannedShowNoJournal }
{}

/// Where a journal stands in a tree that a commit may leave, it is of version 2, as the commit wrote it. Such a tree is an
/// interrupted tree as recovery knows them, whose journal may be of either version.
pub fn written_are_interrupted()
    ensures { WrittenAreInterrupted }
{}

/// The way back, and recovery, where no journal has its name: the names are removed and then the directory, if it stands. A crash at
/// any moment leaves an interrupted tree, and behind them the rest that stood is the tree, with nothing pending.
pub fn unplanned_go_back()
    ensures names { UnplannedGoBack }
    ensures absent { UnstagedGoBack }
{}

/// Recovery forward from `at-m`: the steps that are left up to the next cut, the groups behind it, the seal and the cleaning. A
/// crash at any moment leaves an interrupted tree, and behind them the edited tree stands, with nothing pending.
pub fn halts_go_forward()
    ensures { HaltsGoForward }
{}

/// The way back from `at-m`, be it the commit's own or a recovery's: the marker turns round, the steps that were done are undone
/// group by group, the last one first, and the staging directory is cleared. A crash at any moment leaves an interrupted tree, and
/// behind them the old tree stands, with nothing pending.
pub fn halts_go_back()
    ensures { HaltsGoBack }
{}

/// The same from `back-m` on.
pub fn turned_go_back()
    ensures { TurnedGoBack }
{}

/// Recovery where `done` stands: what else stands in the staging directory is removed in whatever order, then the journal and the
/// directory. A crash at any moment leaves an interrupted tree, and behind them the edited tree stands, with nothing pending. Where
/// `undone` stands the same leads to the old tree.
pub fn closed_ones_are_cleared()
    ensures sealed { SealsGoForward }
    ensures undone { UndoneGoBack }
{}

/// The names that are read in the staging directory of an interrupted tree, each with whether it is a directory, can be removed one
/// after another, and then all is cleared but the journal, if one stands. So can the fresh entries of a commit in its first tree.
pub fn names_suffice()
    ensures early { EarlyNamesSuffice }
    ensures sealed { SealedNamesSuffice }
    ensures undone { UndoneNamesSuffice }
    ensures held { HeldNamesSuffice }
    ensures fresh { FreshNamesSuffice }
    ensures start { FreshEntriesSuffice }
    ensures all { NamesAreRead }
    ensures others { OtherNamesAreRead }
{}

/// From each interrupted tree, where nothing else was left since a run began, some calls lead safely to the tree that its row says:
/// forward or back, a crash at any moment leaves an interrupted tree, and behind them nothing is pending.
pub fn interrupted_trees_recover()
    ensures { InterruptedTreesRecover }
{}
