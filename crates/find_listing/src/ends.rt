// How a find ends that lists nothing.
ghost use Rattle.std.specs.Prelude.{◌≡◌};
ghost use Rattle.find_listing.specs.declared.ends.FindEnd.TheVariants as end;

use dired_text::Memory;
use std::alloc::AllocFailed;
use tree_core::CallName;

/// Why files aren't found.
#[derive(Clone, Copy, Debug, PartialEq, Eq)]
pub enum FindEnd {
    /// A call of the tree failed, and this is its name.
    TreeFault(CallName),
    /// An allocation was refused.
    Memory,
}

impl From<Memory> for FindEnd {
    ghost from_gives = { λ _ e. e ≡ end.Memory };

    fn from(_error: Memory) -> FindEnd {
        FindEnd::Memory
    }
}

impl<T: Drop> From<AllocFailed<T>> for FindEnd {
    ghost from_gives = { λ _ e. e ≡ end.Memory };

    fn from(_error: AllocFailed<T>) -> FindEnd {
        FindEnd::Memory
    }
}
