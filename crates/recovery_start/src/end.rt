// Why a recovery doesn't begin.
ghost use Rattle.std.specs.Prelude.{◌≡◌};
ghost use Rattle.recovery_start.specs.declared.end.StartEnd.TheVariants as end;

use dired_text::{Memory, Text};
use std::alloc::{AllocError, AllocFailed};
use tree_core::CallName;

/// Why a recovery doesn't begin. Nothing was changed.
#[derive(Debug, Drop)]
pub enum StartEnd {
    /// This name is of no commit, or what stands under it isn't.
    Foreign(Text),
    /// The journal can't be read from this offset on.
    BadJournal(u64),
    /// An allocation was refused.
    Memory,
    /// This call of the tree failed.
    TreeFault(CallName),
}

impl From<Memory> for StartEnd {
    ghost from_gives = { λ _ e. e ≡ end.Memory };

    fn from(_error: Memory) -> StartEnd {
        StartEnd::Memory
    }
}

impl From<AllocError> for StartEnd {
    ghost from_gives = { λ _ e. e ≡ end.Memory };

    fn from(_error: AllocError) -> StartEnd {
        StartEnd::Memory
    }
}

impl<T: Drop> From<AllocFailed<T>> for StartEnd {
    ghost from_gives = { λ _ e. e ≡ end.Memory };

    fn from(_error: AllocFailed<T>) -> StartEnd {
        StartEnd::Memory
    }
}
