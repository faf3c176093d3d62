// How calls of a buffer end that aren't done.
ghost use Rattle.std.specs.Prelude.{◌≡◌};
ghost use Rattle.section_buffer.specs.declared.ends.BufferEnd.TheVariants as end;

use dired_text::Memory;
use tree_core::CallName;

/// Why a call of a buffer isn't done.
#[derive(Clone, Copy, Debug, PartialEq, Eq)]
pub enum BufferEnd {
    /// Nothing stands at the directory.
    NoSuchDir,
    /// Something else than a directory stands there.
    NotDirectory,
    /// The section is there already.
    AlreadyThere,
    /// The section or the line isn't there, or nothing is left to be undone.
    NotThere,
    /// A call of the tree failed, and this is its name.
    TreeFault(CallName),
    /// An allocation was refused.
    Memory,
}

impl From<Memory> for BufferEnd {
    ghost from_gives = { λ _ e. e ≡ end.Memory };

    fn from(_error: Memory) -> BufferEnd {
        BufferEnd::Memory
    }
}

/// Why a buffer isn't printed.
#[derive(Clone, Copy, Debug, PartialEq, Eq)]
pub enum PrintEnd {
    /// The output failed. Some first bytes of the text may have been taken.
    Failed,
    /// An allocation was refused, before anything was written.
    Memory,
}
