// The listing that a command prints.
ghost use Rattle.std.specs.Prelude.{◌≡◌, IfErr, ℕ, List, Option};
ghost use Rattle.tree_core.specs.History.{current_tree};
ghost use Rattle.subdir_list.specs.Listings.{first_other};
ghost use Rattle.dired_run.specs.Reports.{decided_of, output_of};
ghost use Rattle.dired_run.specs.Runs.{Decides, outside};
ghost use Rattle.run_status.specs.Statuses.{IsKeptBehind, IsTreeRefusal, calls_behind, sort_of};
ghost use Rattle.dired_run.specs.Verdicts.{on_dirs};

use crate::Status;
use crate::output::Output;
use dired_text::Path;
use listing_text::Switches;
use std::alloc::Global;
use subdir_list::{ListEnd, list_dirs};
use tree_core::Tree;

/// The listing of the root and of these directories.
///
/// # Errors
/// `Missing` with the first of them at which no directory stands, the first failed call of the tree, or want of memory.
pub fn list<T: Tree>(
    alloc: Global,
    tree: &mut T,
    switches: &Switches,
    dirs: &[Path],
) -> Result<Output, Status>
    // Whatever was read before.
    ensures decides { T.Tells →
        (reads reads_now : ℕ) (last last_now : Option (List ℕ)) → reads_now ≡ reads →
        let old = current_tree (T.history tree.old) in
        let before = outside (T.history tree.old) (T.fields tree.old) (T.faults tree.old)
        (T.changes tree.old) (T.before_failed tree.old) reads last in
        let now = outside (T.history tree.new) (T.fields tree.new) (T.faults tree.new)
        (T.changes tree.new) (T.before_failed tree.new) reads_now last_now in
        Decides (on_dirs switches.now dirs.now (first_other old dirs.now)) before now
        (decided_of result) (output_of result) }
    ensures calls { T.faults tree.new ≡
        calls_behind (sort_of (decided_of result)) (T.faults tree.old) }
    ensures kept { IsKeptBehind (sort_of (decided_of result))
        (T.changes tree.old) (T.changes tree.new) }
    ensures end { IfErr result IsTreeRefusal }
{
    match list_dirs(alloc, tree, dirs, switches) {
        Ok(text) => Ok(Output::Lines(text)),
        Err(ListEnd::NotDirectory(dir)) => match dir.text() {
            Ok(name) => Err(Status::Missing { name }),
            Err(_) => Err(Status::Memory),
        },
        Err(ListEnd::TreeFault(first)) => Err(Status::TreeFault { first }),
        Err(ListEnd::Memory) => Err(Status::Memory),
    }
}
