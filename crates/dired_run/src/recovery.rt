// The recovery of what an interrupted commit left.
ghost use Rattle.std.specs.Prelude.{◌≡◌, ℕ, List, Option, IfErr};
ghost use Rattle.dired_run.specs.Reports.{decided_of, output_of};
ghost use Rattle.dired_run.specs.Runs.{Decides, outside};
ghost use Rattle.run_status.specs.Statuses.{IsKeptBehind, IsTreeRefusal, calls_behind, sort_of};
ghost use Rattle.dired_run.specs.Verdicts.{Recovers};

use crate::Status;
use crate::output::Output;
use commit_recover::{RecoverEnd, recover};
use std::alloc::Global;
use tree_core::Tree;

/// Brings what an interrupted commit left to the old or the edited tree, and answers what it ended with; `back` is the way to
/// the old one.
///
/// # Errors
/// Want of memory, the first failed call of the tree, or what is of no interrupted commit.
pub fn recover_tree<T: Tree>(alloc: Global, tree: &mut T, back: bool) -> Result<Output, Status>
    // Whatever was read before.
    ensures decides { T.Tells →
        (reads reads_now : ℕ) (last last_now : Option (List ℕ)) → reads_now ≡ reads →
        let before = outside (T.history tree.old) (T.fields tree.old) (T.faults tree.old)
        (T.changes tree.old) (T.before_failed tree.old) reads last in
        let now = outside (T.history tree.new) (T.fields tree.new) (T.faults tree.new)
        (T.changes tree.new) (T.before_failed tree.new) reads_now last_now in
        Decides (Recovers back) before now (decided_of result) (output_of result) }
    ensures calls { T.faults tree.new ≡
        calls_behind (sort_of (decided_of result)) (T.faults tree.old) }
    ensures kept { IsKeptBehind (sort_of (decided_of result))
        (T.changes tree.old) (T.changes tree.new) }
    ensures end { IfErr result IsTreeRefusal }
{
    match recover(alloc, tree, back) {
        RecoverEnd::Nothing => Ok(Output::Nothing),
        RecoverEnd::Edited => Ok(Output::Edited),
        RecoverEnd::Old => Ok(Output::Old),
        RecoverEnd::Cleared => Ok(Output::Cleared),
        RecoverEnd::Memory => Err(Status::Memory),
        RecoverEnd::TreeFault { first } => Err(Status::TreeFault { first }),
        RecoverEnd::BadJournal { offset } => Err(Status::BadJournal { offset }),
        RecoverEnd::Foreign { name } => Err(Status::Foreign { name }),
        RecoverEnd::Strange { step } => Err(Status::Strange { step }),
    }
}
