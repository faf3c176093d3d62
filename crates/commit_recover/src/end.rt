// How a recovery ends.
ghost use Rattle.std.specs.Prelude.{◌≡◌};
ghost use Rattle.commit_recover.specs.Starts.{end_of_start};

use dired_text::Text;
use recovery_start::StartEnd;
use tree_core::CallName;

/// How a recovery ends. But for `TreeFault` and `Strange`, nothing is pending then, or nothing was changed.
#[derive(Debug, PartialEq, Eq, Drop)]
pub enum RecoverEnd {
    /// Nothing stood at the staging directory.
    Nothing,
    /// The commit was brought to its end: the edited tree stands.
    Edited,
    /// The commit was taken back: the old tree stands.
    Old,
    /// The staging directory had no journal, and was removed. The rest of the tree stays: the old tree where the commit hadn't
    /// begun its steps, and the edited one where it had ended them.
    Cleared,
    /// An allocation was refused. Nothing was changed.
    Memory,
    /// This call of the tree failed. Recovery may be called again.
    TreeFault { first: CallName },
    /// The journal is unreadable from this byte on, counted from 0. Nothing was changed.
    BadJournal { offset: u64 },
    /// What stands under this name, in the staging directory or as that itself, is of no commit. Nothing was changed.
    Foreign { name: Text },
    /// The tree is neither before nor after the step of this number, counted from 0. The number of the steps stands for what is
    /// in the staging directory behind the last step, and 0 for what is in it when no step is done. An interrupted commit never
    /// leads to it.
    Strange { step: u64 },
}

impl From<StartEnd> for RecoverEnd {
    ghost from_gives = { λ start end. end ≡ end_of_start start };

    fn from(end: StartEnd) -> RecoverEnd {
        match end {
            StartEnd::Foreign(name) => RecoverEnd::Foreign { name },
            StartEnd::BadJournal(offset) => RecoverEnd::BadJournal { offset },
            StartEnd::Memory => RecoverEnd::Memory,
            StartEnd::TreeFault(first) => RecoverEnd::TreeFault { first },
        }
    }
}
