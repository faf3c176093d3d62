// Laws over the definitions alone.
ghost use Rattle.edit_laws.specs.Laws.{
  EditedIsEdited,
  EditedIsOne,
  EditedIsTree,
  PathsGoToTheirPlaces,
  PlacesAreApart,
};
ghost use Rattle.edit_laws.specs.Lines.{
  FirstIsShortest,
  LinesAreCarriedOut,
  NonePasses,
  OthersKeepTheirModes,
  PlacesByCases,
  VictimsAreReplaced,
};

/// Well-formed changes take two different paths of a tree that stay to different places.
pub fn places_are_apart()
    ensures { PlacesAreApart }
{}

/// The edited tree as a function is the one tree that is edited as a relation.
pub fn edited_tree_is_the_one()
    ensures is_edited { EditedIsEdited }
    ensures no_other { EditedIsOne }
{}

/// In the edited tree each entry that is neither a victim, nor removed, nor a link with a new target stands at its new place with
/// its new mode. Each entry that is made, links with a new target among them, stands at its place, and each missing directory
/// with mode 0o755. Nothing else stands there.
pub fn paths_go_to_their_places()
    ensures { PathsGoToTheirPlaces }
{}

/// Well-formed edits, removals and creations make a tree of a tree: its root is a directory, the parent of each path is one, the
/// paths of one number show one file, and modes and targets are lawful.
pub fn edited_tree_is_a_tree()
    ensures { EditedIsTree }
{}

/// Each line that has a source is carried out. A new path outside of the source's directory is the source's
/// new place, whatever becomes of that directory. A new path in the same directory gives it the new name at the directory's new
/// place, and with no new path it keeps its own name there. It has the new mode that the line names. What no line gives a mode, by
/// its path or by the number of its file, stays as it is.
pub fn lines_are_carried_out()
    ensures carried_out { LinesAreCarriedOut }
    ensures other_modes { OthersKeepTheirModes }
{}

/// The new place of a path: the root stays; what an edit names anew in its directory goes with the directory under the new name; what
/// an edit sends elsewhere goes to the path that it writes; every other path goes with its directory under its own name.
pub fn new_places_by_cases()
    ensures { PlacesByCases }
{}

/// What stands at a victim's path is what the new path of a line replaces, and the other way round.
pub fn victims_are_what_new_paths_replace()
    ensures { VictimsAreReplaced }
{}

/// Of the paths above a path the shortest that passes a test is found. None is found only where none passes.
pub fn the_shortest_path_is_told()
    ensures first { FirstIsShortest }
    ensures none { NonePasses }
{}
