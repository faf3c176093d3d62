// Laws of what is found in interrupted trees.
ghost use Rattle.recovery_start.specs.Rows.{EarlyTreesShow, PlannedTreesShow, SealedTreesShow, UndoneTreesShow};

/// Where a commit was stopped nothing is foreign, whatever row the tree is of; and the journal and the marker of the row are found.
/// For a tree on the way it is asked that without them only entries stand.
pub fn interrupted_trees_are_in_order()
    ensures early { EarlyTreesShow }
    ensures planned { PlannedTreesShow }
    ensures sealed { SealedTreesShow }
    ensures undone { UndoneTreesShow }
{}
