// Why a text is no template.
use std::alloc::AllocFailed;
use thiserror::Error;

/// Why a text is no template. A place is that of the backslash, counted in bytes from 0.
#[derive(Clone, Copy, Debug, PartialEq, Eq, Error)]
pub enum ToFault {
    /// A backslash that no `&`, `\` or digit from 1 to 9 follows.
    #[error("bad backslash at byte {0}")]
    BadBackslash(u64),
    /// A group that the regexp does not have.
    #[error("no such group at byte {0}")]
    NoGroup(u64),
    /// An allocation was refused.
    #[error("out of memory")]
    Memory,
}

impl<T: Drop> From<AllocFailed<T>> for ToFault {
    ghost use Rattle.std.specs.Prelude.{◌≡◌};
    ghost use Rattle.rename_regexp.specs.declared.fault.ToFault.TheVariants.{Memory as memory};

    ghost from_gives = { λ _ fault. fault ≡ memory };

    fn from(_error: AllocFailed<T>) -> ToFault {
        ToFault::Memory
    }
}
