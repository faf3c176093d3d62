// How a drill ends that has no counts.
ghost use Rattle.std.specs.Prelude.{◌≡◌};
ghost use Rattle.drill_run.specs.declared.ends.DrillEnd.TheVariants as end;
ghost use Rattle.drill_run.specs.Ends.{end_of_check, end_of_find};

use commit_run::CommitEnd;
use dired_text::Memory;
use edit_words::CheckFault;
use find_listing::FindEnd;
use std::alloc::AllocFailed;
use tree_core::CallName;

/// Why a drill isn't done, or isn't counted.
#[derive(Clone, Copy, Debug, PartialEq, Eq)]
pub enum DrillEnd {
    /// An allocation was refused, before the commit or behind it.
    Memory,
    /// A look of the check or of the count behind the commit failed, and this is its name.
    Look(CallName),
    /// The commit ended so, which is neither done nor want of memory.
    Commit(CommitEnd),
}

impl From<Memory> for DrillEnd {
    ghost from_gives = { λ _ e. e ≡ end.Memory };

    fn from(_error: Memory) -> DrillEnd {
        DrillEnd::Memory
    }
}

impl<T: Drop> From<AllocFailed<T>> for DrillEnd {
    ghost from_gives = { λ _ e. e ≡ end.Memory };

    fn from(_error: AllocFailed<T>) -> DrillEnd {
        DrillEnd::Memory
    }
}

impl From<CheckFault> for DrillEnd {
    ghost from_gives = { λ fault e. e ≡ end_of_check fault };

    // Nothing is refused in the tree of a drill.
    fn from(fault: CheckFault) -> DrillEnd {
        match fault {
            CheckFault::TreeFault(call) => DrillEnd::Look(call),
            _ => DrillEnd::Memory,
        }
    }
}

impl From<FindEnd> for DrillEnd {
    ghost from_gives = { λ found e. e ≡ end_of_find found };

    fn from(found: FindEnd) -> DrillEnd {
        match found {
            FindEnd::TreeFault(call) => DrillEnd::Look(call),
            FindEnd::Memory => DrillEnd::Memory,
        }
    }
}
