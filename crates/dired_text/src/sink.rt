// The output.
ghost use Rattle.std.specs.Prelude.{◌≡◌, List, ℕ, OnErr};
ghost use Rattle.dired_text.specs.Outside.{TakesAs, Counts};

use crate::Failed;

/// Where the output goes: the bytes that were taken so far.
pub trait Sink {
    /// Whether it tells what it took.
    ghost Tells: { Type 0 };

    /// Where it tells, the bytes taken so far.
    ghost taken: { Self → List ℕ };

    /// How many calls have failed.
    ghost faults: { Self → ℕ };

    /// Where it is known when a call may fail, whether one between these states may.
    ghost MayFail: { Self → Self → Type 0 };

    /// Takes a piece. Where it fails, some first bytes of the piece may have been taken.
    fn put(&mut self, piece: &[u8]) -> Result<(), Failed>
        ensures taken { Tells → TakesAs result piece.now (taken self.old) (taken self.new) }
        ensures count { Counts result (faults self.old) (faults self.new) }
        ensures may_fail { OnErr result (MayFail self.old self.new) };
}
