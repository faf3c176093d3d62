// What holds of drills.
ghost use Rattle.drill_tree.specs.Laws.{DrillsAreAsked, DrillsCanBeMade};

/// The edits of a drill can be asked for, and where all is confirmed they can be made in its tree.
pub fn drills_can_be_made()
    ensures asked { DrillsAreAsked }
    ensures made { DrillsCanBeMade }
{}
