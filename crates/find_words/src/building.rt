// The program of a predicate, as it is built.
ghost use Rattle.std.specs.Prelude.{◌≡◌};

use crate::conditions::Condition;
use crate::predicate::Operation;
use dired_text::Memory;
use std::alloc::Global;
use std::marker::Model;

// What waits for an operand.
#[derive(Clone, Copy, Debug, PartialEq, Eq)]
pub(crate) enum Pending {
    // A bracket that is open.
    Open,
    Not,
    And,
    Or,
}

// A program and what waits, seen as the two lists, the last that waits first.
#[derive(Drop)]
pub(crate) struct Builder {
    program: Vec<Operation>,
    pending: Vec<Pending>,
}

impl Model for Builder {
    ghost use Rattle.std.specs.Prelude.{reverse};
    ghost use Rattle.find_words.specs.Reading.{Built};

    ghost Value = { Built };

    ghost view = { λ b. (b.program.items, reverse b.pending.items) };
}

impl Builder {
    ghost use Rattle.std.specs.Prelude.{◌≡◌, [], OnOk};
    ghost use Rattle.find_words.specs.Reading.{waiting, tested, complete as complete_of, alternative as alternative_of, closed, taken_tight, tight};

    pub(crate) fn new(alloc: Global) -> Self
        ensures { result ≡ ([], []) }
    {
        Builder {
            program: Vec::new(alloc),
            pending: Vec::new(alloc),
        }
    }

    // An operator or a bracket that waits for an operand.
    pub(crate) fn wait(&mut self, pending: Pending) -> Result<(), Memory>
        ensures { OnOk result (self.new ≡ waiting pending self.old) }
    {
        self.pending.push(pending)?;
        Ok(())
    }

    // A condition, which is an operand.
    pub(crate) fn test(&mut self, condition: Condition) -> Result<(), Memory>
        ensures { OnOk result (self.new ≡ tested condition self.old) }
    {
        self.program.push(Operation::Test(condition))?;
        self.complete()
    }

    // An operand is complete: each `!` before it and a conjunction are done.
    fn complete(&mut self) -> Result<(), Memory>
        ensures { OnOk result (self.new ≡ complete_of self.old.0 self.old.1) }
    {
        while let Some(operation) = self.take_tight() {
            self.program.push(operation)?;
        }
        Ok(())
    }

    // Takes off a `!` or a conjunction that waits last.
    fn take_tight(&mut self) -> Option<Operation>
        ensures found { result ≡ tight self.old.1 }
        ensures left { self.new ≡ (self.old.0, taken_tight self.old.1) }
    {
        let last = *self.pending.last()?;
        match last {
            Pending::Not => {
                self.pending.pop();
                Some(Operation::Not)
            }
            Pending::And => {
                self.pending.pop();
                Some(Operation::And)
            }
            Pending::Or => None,
            Pending::Open => None,
        }
    }

    // An alternative is complete.
    pub(crate) fn alternative(&mut self) -> Result<(), Memory>
        ensures { OnOk result (self.new ≡ alternative_of self.old) }
    {
        if self.pending.last() == Some(&Pending::Or) {
            self.pending.pop();
            self.program.push(Operation::Or)?;
        }
        Ok(())
    }

    // The innermost group ends.
    pub(crate) fn close(&mut self) -> Result<(), Memory>
        ensures { OnOk result (self.new ≡ closed self.old) }
    {
        self.alternative()?;
        if self.pending.pop().is_some() {
            self.complete()?;
        }
        Ok(())
    }

    // The program.
    pub(crate) fn into_program(self) -> Vec<Operation>
        ensures { result.items ≡ self.0 }
    {
        self.program
    }
}
