// A shell in memory.
ghost use Rattle.std.specs.Prelude.{◌≡◌, ◌++◌, ◌∷◌, [], Some, IfOk, OnOk, OnErr};
ghost use Rattle.dired_text.specs.Outside.{RunsAs, Counts};
ghost use Rattle.dired_text.specs.MemOutside.{shell_runs, shell_texts, shell_exit, shell_schedule, shell_calls, shell_faults, shell_short, ShellMayFail, ShellObeys};

use crate::{Failed, Memory, Shell, Text};
use std::alloc::Global;

/// A shell in memory, with a schedule of calls that fail: it keeps the texts, and each exits with the same number. Another
/// call fails only where there is no memory to keep the text. A call that fails keeps nothing.
#[derive(Drop)]
pub struct MemShell {
    alloc: Global,
    texts: Vec<Text>,
    exit: u8,
    fail: Vec<u64>,
    calls: u64,
    faults: u64,
    short: u64,
}

impl MemShell {
    /// A shell that has run nothing, whose texts exit with this number. `fail` lists the calls that fail, the first call
    /// being number 0.
    pub fn new(alloc: Global, exit: u8, fail: Vec<u64>) -> Result<Self, Memory>
        ensures runs { IfOk result (λ s. shell_runs s ≡ []) }
        ensures exit { IfOk result (λ s. shell_exit s ≡ exit) }
        ensures schedule { IfOk result (λ s. shell_schedule s ≡ fail.items) }
        ensures calls { IfOk result (λ s. shell_calls s ≡ 0) }
        ensures faults { IfOk result (λ s. shell_faults s ≡ 0) }
        ensures short { IfOk result (λ s. shell_short s ≡ 0) }
    {
        Ok(MemShell {
            alloc,
            texts: Vec::new(alloc),
            exit,
            fail,
            calls: 0,
            faults: 0,
            short: 0,
        })
    }

    /// The texts run so far.
    pub fn texts(&self) -> &[Text]
        ensures { result.now ≡ shell_texts self.now }
    {
        &self.texts
    }

    /// How many calls failed because there was no memory. The count stays at its last value.
    pub fn short(&self) -> u64
        ensures { result ≡ shell_short self.now }
    {
        self.short
    }

    // Keeps a text.
    fn keep(&mut self, text: &str) -> Result<(), Memory>
        ensures kept { OnOk result (shell_runs self.new ≡ shell_runs self.old
            ++ (text.now, Some self.old.exit) ∷ []) }
        ensures same { OnErr result (shell_runs self.new ≡ shell_runs self.old) }
        ensures rest { self.new ≡ record self.old { texts = self.new.texts } }
    {
        let copy = Text::copy_of(self.alloc, text)?;
        self.texts.push(copy)?;
        Ok(())
    }
}

impl Shell for MemShell {
    ghost Tells = { Unit {0} };

    ghost runs = { shell_runs };

    ghost faults = { shell_faults };

    ghost MayFail = { ShellMayFail };

    fn run(&mut self, text: &str) -> Result<u8, Failed>
        ensures runs { RunsAs text.now (shell_runs self.old) (shell_runs self.new) result }
        ensures count { Counts result (shell_faults self.old) (shell_faults self.new) }
        ensures may_fail { OnErr result (ShellMayFail self.old self.new) }
        ensures obeys { ShellObeys self.old self.new result }
    {
        let number = self.calls;
        self.calls = number.saturating_add(1);
        if self.fail.contains(&number) {
            self.faults = self.faults.saturating_add(1);
            return Err(Failed);
        }
        if self.keep(text).is_err() {
            self.short = self.short.saturating_add(1);
            self.faults = self.faults.saturating_add(1);
            return Err(Failed);
        }
        Ok(self.exit)
    }
}
