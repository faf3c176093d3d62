// How a listing ends that isn't made.
ghost use Rattle.std.specs.Prelude.{◌≡◌};
ghost use Rattle.subdir_list.specs.declared.ends.ListEnd.TheVariants as end;

use dired_text::{Memory, Path};
use std::alloc::{AllocError, AllocFailed};
use tree_core::CallName;

/// Why a listing isn't made.
#[derive(Debug, PartialEq, Eq, Drop)]
pub enum ListEnd {
    /// The first of the directories that were asked for at which no directory stands.
    NotDirectory(Path),
    /// A call of the tree failed, and this is its name.
    TreeFault(CallName),
    /// An allocation was refused.
    Memory,
}

impl From<Memory> for ListEnd {
    ghost from_gives = { λ _ e. e ≡ end.Memory };

    fn from(_error: Memory) -> ListEnd {
        ListEnd::Memory
    }
}

impl<T: Drop> From<AllocFailed<T>> for ListEnd {
    ghost from_gives = { λ _ e. e ≡ end.Memory };

    fn from(_error: AllocFailed<T>) -> ListEnd {
        ListEnd::Memory
    }
}

impl From<AllocError> for ListEnd {
    ghost from_gives = { λ _ e. e ≡ end.Memory };

    fn from(_error: AllocError) -> ListEnd {
        ListEnd::Memory
    }
}
