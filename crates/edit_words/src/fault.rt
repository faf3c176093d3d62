// Why changes can't be made.
ghost use Rattle.std.specs.Prelude.{◌≡◌};
ghost use Rattle.edit_words.specs.declared.fault.CheckFault.TheVariants as fault;

use dired_text::{Memory, Path};
use tree_core::CallName;

/// Why changes are refused. The line is the least one that has the fault, and the other line the least other one that it
/// clashes with; a path is the shortest that does.
#[derive(Debug, PartialEq, Eq, Drop)]
pub enum CheckFault {
    /// Something stands at the staging directory, `.wdired-commit`.
    Pending,
    /// What stands at the source isn't what the line shows.
    Stale(u32),
    /// The source or the written path is in the staging directory.
    Reserved(u32),
    /// Another line has the same written path.
    TwoToOne(u32, u32),
    /// Another line names another mode for the same file.
    ModeClash(u32, u32),
    /// Something other than a directory stands above the written path.
    ParentNotDirectory(u32, Path),
    /// A directory above the written path is moved by a line, maybe this one.
    MovedParent(u32, u32),
    /// A directory that has to be made is the written path of another line.
    ParentTaken(u32, u32),
    /// The new place of the source has more than 4,095 bytes.
    PathTooLong(u32),
    /// A directory would be replaced.
    TargetIsDirectory(u32, Path),
    /// A directory that is to be removed has entries.
    NotEmpty(u32, Path),
    /// What would be replaced isn't confirmed.
    Unconfirmed(u32, Path),
    /// The paths of the changes have so many bytes, more than 67,108,864.
    PathBytes(u64),
    /// This call of the tree failed.
    TreeFault(CallName),
    /// An allocation was refused.
    Memory,
}

impl From<Memory> for CheckFault {
    ghost from_gives = { λ _ e. e ≡ fault.Memory };

    fn from(_error: Memory) -> CheckFault {
        CheckFault::Memory
    }
}
