// An output in memory.
ghost use Rattle.std.specs.Prelude.{◌≡◌, [], IfOk, OnErr};
ghost use Rattle.dired_text.specs.Outside.{TakesAs, Counts};
ghost use Rattle.dired_text.specs.MemOutside.{sink_taken, sink_schedule, sink_calls, sink_faults, sink_short, SinkMayFail, SinkObeys};

use crate::{Failed, Memory, Sink};
use std::alloc::Global;

/// An output in memory, with a schedule of calls that fail. Another call fails only where there is no memory to keep
/// the piece. A call that fails takes nothing.
#[derive(Drop)]
pub struct MemSink {
    taken: Vec<u8>,
    fail: Vec<u64>,
    calls: u64,
    faults: u64,
    short: u64,
}

impl MemSink {
    /// A sink that has taken nothing. `fail` lists the calls that fail, the first call being number 0.
    pub fn new(alloc: Global, fail: Vec<u64>) -> Result<Self, Memory>
        ensures taken { IfOk result (λ s. sink_taken s ≡ []) }
        ensures schedule { IfOk result (λ s. sink_schedule s ≡ fail.items) }
        ensures calls { IfOk result (λ s. sink_calls s ≡ 0) }
        ensures faults { IfOk result (λ s. sink_faults s ≡ 0) }
        ensures short { IfOk result (λ s. sink_short s ≡ 0) }
    {
        Ok(MemSink {
            taken: Vec::new(alloc),
            fail,
            calls: 0,
            faults: 0,
            short: 0,
        })
    }

    /// The bytes taken so far.
    pub fn taken(&self) -> &[u8]
        ensures { result.now ≡ sink_taken self.now }
    {
        &self.taken
    }

    /// How many calls failed because there was no memory. The count stays at its last value.
    pub fn short(&self) -> u64
        ensures { result ≡ sink_short self.now }
    {
        self.short
    }
}

impl Sink for MemSink {
    ghost Tells = { Unit {0} };

    ghost taken = { sink_taken };

    ghost faults = { sink_faults };

    ghost MayFail = { SinkMayFail };

    fn put(&mut self, piece: &[u8]) -> Result<(), Failed>
        ensures taken { TakesAs result piece.now (sink_taken self.old) (sink_taken self.new) }
        ensures count { Counts result (sink_faults self.old) (sink_faults self.new) }
        ensures may_fail { OnErr result (SinkMayFail self.old self.new) }
        ensures obeys { SinkObeys self.old self.new result }
    {
        let number = self.calls;
        self.calls = number.saturating_add(1);
        if self.fail.contains(&number) {
            self.faults = self.faults.saturating_add(1);
            return Err(Failed);
        }
        if self.taken.extend_from_slice(piece).is_err() {
            self.short = self.short.saturating_add(1);
            self.faults = self.faults.saturating_add(1);
            return Err(Failed);
        }
        Ok(())
    }
}
