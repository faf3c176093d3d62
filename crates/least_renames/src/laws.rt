// Laws of the definitions.
ghost use Rattle.least_renames.specs.Laws.{
  CyclesAreFound,
  KnotsAreCycles,
  MovesAreLeast,
  OneDirectoryIsFlat,
  PlansAreLeast,
  PlansAreLeastFromMore,
  PlansAreMoves,
};

/// Changes are flat where no source of a moving edit or of a link with a new target is strictly below another one. Flat
/// changes have as many knots as cycles: a cycle is a list of moving edits, none twice, in which each one's new path is the
/// next one's source, round to the first. In whatever way cycles with no edit in common are picked, until each other one
/// has an edit in common with one of them, they are as many.
pub fn knots_are_cycles()
    ensures counted { KnotsAreCycles }
    ensures found { CyclesAreFound }
{}

/// Edits that only give entries of one directory other names in it, where nothing is replaced, are flat. Every list of
/// renames that can be carried out in turn, and that carries each path of the tree to its new place, has at least as many
/// renames as such edits have moves, in whatever order ready ones are carried out. The steps of a plan of such edits are just
/// these moves. The renames may begin with a tree in which more stands, as the staging directory that the plan's own moves use.
pub fn no_list_of_renames_is_shorter()
    ensures flat { OneDirectoryIsFlat }
    ensures moves { MovesAreLeast }
    ensures plans { PlansAreLeast }
    ensures wider { PlansAreLeastFromMore }
    ensures steps { PlansAreMoves }
{}
