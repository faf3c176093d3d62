// Why a text gives no settings.
use dired_text::{Memory, Text};
use emacs_regexp::RegexpFault;
use std::alloc::AllocFailed;

/// Why a text gives no settings. A key of a guess is named `guess.` and the key.
#[derive(Debug, Drop)]
pub enum SettingsFault {
    /// The text is no TOML.
    NotToml,
    /// A key that settings do not have.
    UnknownKey(Text),
    /// The value at a key has not the key's type, or a guess lacks the key.
    WrongType(Text),
    /// The text at a key is no regexp.
    BadRegexp(Text, RegexpFault),
    /// An allocation was refused.
    Memory,
}

impl From<Memory> for SettingsFault {
    ghost use Rattle.std.specs.Prelude.{◌≡◌};
    ghost use Rattle.omit_rules.specs.declared.fault.SettingsFault.TheVariants.{Memory as memory};

    ghost from_gives = { λ _ fault. fault ≡ memory };

    fn from(_error: Memory) -> SettingsFault {
        SettingsFault::Memory
    }
}

impl<T: Drop> From<AllocFailed<T>> for SettingsFault {
    ghost use Rattle.std.specs.Prelude.{◌≡◌};
    ghost use Rattle.omit_rules.specs.declared.fault.SettingsFault.TheVariants.{Memory as memory};

    ghost from_gives = { λ _ fault. fault ≡ memory };

    fn from(_error: AllocFailed<T>) -> SettingsFault {
        SettingsFault::Memory
    }
}
