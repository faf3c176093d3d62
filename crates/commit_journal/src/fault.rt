// Why bytes are not read.
ghost use Rattle.std.specs.Prelude.{◌≡◌};
ghost use Rattle.commit_journal.specs.declared.fault.Refusal.TheVariants.{Memory as refused_memory};

use dired_text::Memory;
use std::alloc::{AllocError, AllocFailed};

/// Why bytes are not read as a journal.
#[derive(Clone, Copy, Debug, PartialEq, Eq)]
pub enum JournalFault {
    /// They are the text of no steps. At this offset the first item begins that can't be read: the magic, the count of
    /// steps or a step; or, where all these can be read, what follows the last step.
    BadJournal(u64),
    /// An allocation was refused.
    Memory,
}

// Why an item is not read.
#[derive(Clone, Copy, Debug, PartialEq, Eq)]
pub(crate) enum Refusal {
    Unreadable,
    Memory,
}

impl From<AllocError> for Refusal {
    ghost from_gives = { λ _ e. e ≡ refused_memory };

    fn from(_error: AllocError) -> Refusal {
        Refusal::Memory
    }
}

impl<T: Drop> From<AllocFailed<T>> for Refusal {
    ghost from_gives = { λ _ e. e ≡ refused_memory };

    fn from(_error: AllocFailed<T>) -> Refusal {
        Refusal::Memory
    }
}

impl From<Memory> for Refusal {
    ghost from_gives = { λ _ e. e ≡ refused_memory };

    fn from(_error: Memory) -> Refusal {
        Refusal::Memory
    }
}
