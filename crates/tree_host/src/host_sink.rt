// The standard output. It tells nothing of what it took.
ghost use Rattle.std.specs.Prelude.{◌≡◌};

use dired_text::{Failed, Sink};
use std::io::{self, Write};

/// The standard output.
#[derive(Drop)]
pub struct OutSink<R: Print + Drop> {
    rt: R,
    faults: u64,
}

impl<R: Print + Drop> OutSink<R> {
    /// The standard output of this runtime.
    pub fn new(rt: R) -> Self
        ensures { result.faults ≡ 0 }
    {
        OutSink { rt, faults: 0 }
    }
}

impl<R: Print + Drop> Sink for OutSink<R> {
    ghost use Rattle.std.specs.Prelude.{[]};

    ghost Tells = { ⊥ };

    ghost taken = { λ _. [] };

    ghost faults = { λ s. s.faults };

    ghost MayFail = { λ _ _. Unit {0} };

    fn put(&mut self, piece: &[u8]) -> Result<(), Failed> {
        match io::writer(&self.rt).write_all(piece) {
            Ok(()) => Ok(()),
            Err(_) => {
                self.faults = self.faults.saturating_add(1);
                Err(Failed)
            }
        }
    }
}
