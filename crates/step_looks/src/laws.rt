// Laws over the definitions alone.
ghost use Rattle.step_looks.specs.Laws.{
  LooksTellOnTheWay,
  LooksTellOnTheWayBack,
  NoneIsStrangeOnTheWay,
  NoneIsStrangeOnTheWayBack,
  TestsAreRight,
};

/// Each test of a look holds exactly where what it tests does.
pub fn tests_are_right()
    ensures { TestsAreRight }
{}

/// In a tree where a commit was stopped between steps, the steps that looks have undone are those of the group that were done, and
/// looks tell whether there are any. So it is on the way and on the way back.
pub fn looks_tell_what_was_done()
    ensures on_the_way { LooksTellOnTheWay }
    ensures on_the_way_back { LooksTellOnTheWayBack }
{}

/// In such a tree a look tells of each step of the group whether it was done, and none is strange: those that weren't are done, and
/// those that were are undone. So it is on the way and on the way back.
pub fn looks_tell_what_is_left()
    ensures on_the_way { NoneIsStrangeOnTheWay }
    ensures on_the_way_back { NoneIsStrangeOnTheWayBack }
{}
