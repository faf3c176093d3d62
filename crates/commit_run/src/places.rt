// The groups of what was prepared, and the markers at their cuts, by number.
ghost use Rattle.std.specs.Prelude.{◌≡◌, ◌≤◌, ◌<◌, [], get_or, length};
ghost use Rattle.commit_run.specs.Preparing.{IsPrepared};
ghost use Rattle.commit_run.specs.WayBack.{at_cut, back_at_cut};
ghost use Rattle.commit_calls.specs.Cuts.{cut_at, group_at};
ghost use Rattle.step_looks.specs.Looks.{AreParents};
ghost use Rattle.step_trees.specs.Groups.{groups};

use crate::prepared::Prepared;
use commit_steps::Step;
use dired_text::Path;
use step_looks::Parents;

impl Prepared {
    /// The number of the cut at the end of the steps, which is that of the groups.
    pub(crate) fn last_cut(&self) -> usize
        requires prepared { IsPrepared self.now }
        ensures { result ≡ length (groups self.now.steps) }
    {
        self.ends.len()
    }

    /// The path of the marker at a cut.
    pub(crate) fn at_marker(&self, cut: usize) -> &Path
        requires prepared { IsPrepared self.now }
        requires cut { cut ≤ length (groups self.now.steps) }
        ensures { result.now ≡ at_cut self.now.steps cut }
    {
        path_at(&self.at_markers, cut)
    }

    /// The path of the marker of a way back at a cut.
    pub(crate) fn back_marker(&self, cut: usize) -> &Path
        requires prepared { IsPrepared self.now }
        requires cut { cut ≤ length (groups self.now.steps) }
        ensures { result.now ≡ back_at_cut self.now.steps cut }
    {
        path_at(&self.back_markers, cut)
    }

    /// The steps of a group.
    pub(crate) fn group(&self, k: usize) -> &[Step]
        requires prepared { IsPrepared self.now }
        requires number { k < length (groups self.now.steps) }
        ensures { result.now ≡ group_at k (groups self.now.steps) }
    {
        let from = self.place(k);
        let end = end_at(&self.ends, k);
        &self.steps.as_slice()[from..end]
    }

    /// The directories of the paths of each of its steps.
    pub(crate) fn group_parents(&self, k: usize) -> &[Parents]
        requires prepared { IsPrepared self.now }
        requires number { k < length (groups self.now.steps) }
        ensures { AreParents (group_at k (groups self.now.steps)) result.now }
    {
        let from = self.place(k);
        let end = end_at(&self.ends, k);
        &self.parents[from..end]
    }

    // How many steps lie before a cut.
    fn place(&self, cut: usize) -> usize
        requires prepared { IsPrepared self.now }
        requires cut { cut ≤ length (groups self.now.steps) }
        ensures place { result ≡ cut_at cut (groups self.now.steps) }
        ensures within { result ≤ length self.now.steps }
    {
        if cut == 0 {
            0
        } else {
            end_at(&self.ends, cut - 1)
        }
    }
}

fn path_at(paths: &[Path], k: usize) -> &Path
    requires { k < length paths.now }
    ensures { result.now ≡ get_or paths.now k [] }
{
    &paths[k]
}

fn end_at(ends: &[usize], k: usize) -> usize
    requires { k < length ends.now }
    ensures { result ≡ get_or ends.now k 0 }
{
    ends[k]
}
