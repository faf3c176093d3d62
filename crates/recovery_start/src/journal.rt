// The steps of a journal, as a tree holds it.
ghost use Rattle.std.specs.Prelude.{◌≡◌, IfOk};
ghost use Rattle.std.specs.List.{AllByRecursion};
ghost use Rattle.std.specs.FinMap.{get};
ghost use Rattle.step_trees.specs.Steps.{IsStep};
ghost use Rattle.tree_core.specs.FileTree.{IsFile};
ghost use Rattle.tree_core.specs.History.{current_tree};
ghost use Rattle.tree_core.specs.Looks.{OnlyLooked, failed_in, faults_with};
ghost use Rattle.recovery_start.specs.Start.{IsReadSteps, failed_start};

use crate::StartEnd;
use commit_journal::{JournalFault, decode};
use commit_steps::Steps;
use dired_text::Path;
use std::alloc::Global;
use tree_core::{CallName, ReadEnd, Tree};

// The most bytes that a journal may have.
const MAX_JOURNAL_BYTES: u64 = 1_073_741_824;

// The steps of the journal at this path. Where it has more bytes than it may have, it can't be read from there on.
#[tactic(auto, unfolding(commit_states::specs::Interrupted::max_journal_bytes))]
pub(crate) fn read_steps<T: Tree>(
    alloc: Global,
    tree: &mut T,
    path: &Path,
) -> Result<Steps, StartEnd>
    requires file { T.Tells → IsFile (current_tree (T.history tree.old)) path.now }
    ensures read { T.Tells → IsReadSteps (get (current_tree (T.history tree.old)) path.now) result }
    ensures steps { IfOk result (λ steps. AllByRecursion IsStep steps) }
    ensures looked { T.Tells → OnlyLooked (failed_in failed_start result)
        (T.history tree.old) (T.history tree.new) (T.fields tree.old) (T.fields tree.new)
        (T.before_failed tree.old) (T.before_failed tree.new) }
    ensures faults { T.faults tree.new ≡ faults_with (failed_in failed_start result)
        (T.faults tree.old) }
    ensures unchanged { T.changes tree.new ≡ T.changes tree.old }
{
    let bytes = match tree.read(alloc, path, MAX_JOURNAL_BYTES) {
        Ok(bytes) => bytes,
        Err(ReadEnd::TooLarge) => return Err(StartEnd::BadJournal(MAX_JOURNAL_BYTES)),
        Err(ReadEnd::Failed) => return Err(StartEnd::TreeFault(CallName::Read)),
        Err(ReadEnd::Memory) => return Err(StartEnd::Memory),
    };
    match decode(alloc, bytes.as_slice()) {
        Ok(steps) => Ok(steps),
        Err(JournalFault::BadJournal(offset)) => Err(StartEnd::BadJournal(offset)),
        Err(JournalFault::Memory) => Err(StartEnd::Memory),
    }
}
