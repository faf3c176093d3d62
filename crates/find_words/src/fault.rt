// Why a text is no predicate.
ghost use Rattle.std.specs.Prelude.{◌≡◌};

use dired_text::Memory;

/// Why a text is no predicate.
#[derive(Clone, Copy, Debug, PartialEq, Eq)]
pub enum FindFault {
    /// The first word, counted from 1, at which the text can't go on: the words before it begin some predicate, and with it
    /// they don't. Where the text ends too early it is the number of its words plus 1, and where a quote isn't closed the word in
    /// which it stands.
    Bad { word: u32 },
    /// An allocation was refused.
    Memory,
}

impl From<Memory> for FindFault {
    ghost use Rattle.find_words.specs.declared.fault.FindFault.TheVariants.{Memory as memory};

    ghost from_gives = { λ _ fault. fault ≡ memory };

    fn from(_error: Memory) -> FindFault {
        FindFault::Memory
    }
}
