// Why a text is no regexp.
use dired_text::Memory;
use std::alloc::AllocFailed;
use thiserror::Error;

/// Why a text is no regexp. A place is where the first byte stands that shows the fault, counted in bytes from 0.
#[derive(Clone, Copy, Debug, PartialEq, Eq, Error)]
pub enum RegexpFault {
    /// A `\(` or `[` that is not closed. It is given only where no other fault stands.
    #[error("unclosed at byte {0}")]
    Unclosed(u64),
    /// A `\)` without its `\(`.
    #[error("unopened at byte {0}")]
    Unopened(u64),
    /// A `\{` that is not followed by `m\}` or `m,n\}`, m at most n and each at most 255, or that has nothing to
    /// repeat, or a `\}` without its `\{`.
    #[error("bad interval at byte {0}")]
    BadInterval(u64),
    /// A range in a set whose end is below its start.
    #[error("bad class at byte {0}")]
    BadClass(u64),
    /// Nothing follows a backslash.
    #[error("trailing backslash")]
    TrailingBackslash,
    /// `\s`, `\S`, `\c`, `\C`, `\<`, `\>`, `\_`, `\=`, a back reference, `\(?` without `:`, or `[:` inside a set.
    #[error("not in the profile at byte {0}")]
    NotInProfile(u64),
    /// An allocation was refused.
    #[error("out of memory")]
    Memory,
}

impl From<Memory> for RegexpFault {
    ghost use Rattle.std.specs.Prelude.{◌≡◌};
    ghost use Rattle.emacs_regexp.specs.declared.fault.RegexpFault.TheVariants.{Memory as memory};

    ghost from_gives = { λ _ fault. fault ≡ memory };

    fn from(_error: Memory) -> RegexpFault {
        RegexpFault::Memory
    }
}

impl<T: Drop> From<AllocFailed<T>> for RegexpFault {
    ghost use Rattle.std.specs.Prelude.{◌≡◌};
    ghost use Rattle.emacs_regexp.specs.declared.fault.RegexpFault.TheVariants.{Memory as memory};

    ghost from_gives = { λ _ fault. fault ≡ memory };

    fn from(_error: AllocFailed<T>) -> RegexpFault {
        RegexpFault::Memory
    }
}
