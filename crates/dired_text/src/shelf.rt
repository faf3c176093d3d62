// Named inputs.
ghost use Rattle.std.specs.Prelude.{◌≡◌, ◌≤◌, List, ℕ, Option, Err, IfOk, length};
ghost use Rattle.dired_text.specs.Outside.{ReadsAs, count_after, last_after};

use crate::Bytes;
use std::alloc::Global;

/// Why an input was not read.
#[derive(Clone, Copy, Debug, PartialEq, Eq)]
pub enum ShelfEnd {
    /// No input has this name.
    Absent,
    /// It has more bytes than the limit.
    TooLarge,
    /// The outside refused.
    Failed,
    /// An allocation was refused.
    Memory,
}

/// Named inputs: a finite map from names to bytes, which reads leave as it is.
pub trait Shelf {
    /// Whether it tells what it contains.
    ghost Tells: { Type 0 };

    /// Where it tells, the bytes under each name.
    ghost files: { Self → List ℕ → Option (List ℕ) };

    /// Where it tells, the name of its last failed read.
    ghost last_failed: { Self → Option (List ℕ) };

    /// How many reads have failed.
    ghost faults: { Self → ℕ };

    /// Where it is known when a read may fail, whether one between these states may.
    ghost MayFail: { Self → Self → Type 0 };

    /// The bytes of a name, at most `limit` of them.
    ///
    /// # Errors
    /// `Absent` where nothing has the name, `TooLarge` where it has more bytes than the limit.
    fn read(&mut self, alloc: Global, name: &str, limit: u64) -> Result<Bytes, ShelfEnd>
        ensures limit { IfOk result (λ bytes. length bytes ≤ limit) }
        ensures read { Tells → ReadsAs (files self.old name.now) limit result }
        ensures files { Tells → files self.new ≡ files self.old }
        ensures last_failed { Tells → last_failed self.new ≡
            last_after result name.now (last_failed self.old) }
        ensures count { faults self.new ≡ count_after result (faults self.old) }
        ensures may_fail { result ≡ Err ShelfEnd.Failed → MayFail self.old self.new };
}
