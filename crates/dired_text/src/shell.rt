// What runs the texts of shell commands.
ghost use Rattle.std.specs.Prelude.{◌≡◌, List, ℕ, Option, OnErr};
ghost use Rattle.dired_text.specs.Outside.{RunsAs, Counts};

use crate::Failed;

/// A shell: the texts that it ran so far, each with the number that it exited with.
pub trait Shell {
    /// Whether it tells what it ran.
    ghost Tells: { Type 0 };

    /// Where it tells, the texts run so far, each with its exit number. One whose run failed has none.
    ghost runs: { Self → List (List ℕ × Option ℕ) };

    /// How many calls have failed.
    ghost faults: { Self → ℕ };

    /// Where it is known when a call may fail, whether one between these states may.
    ghost MayFail: { Self → Self → Type 0 };

    /// Runs a text, and gives the number that it exits with.
    fn run(&mut self, text: &str) -> Result<u8, Failed>
        ensures runs { Tells → RunsAs text.now (runs self.old) (runs self.new) result }
        ensures count { Counts result (faults self.old) (faults self.new) }
        ensures may_fail { OnErr result (MayFail self.old self.new) };
}
