// Predicates as programs.
ghost use Rattle.std.specs.Prelude.{◌≡◌, ◌∷◌, IfOk, OnOk, List};
ghost use Rattle.find_words.specs.Expressions.{value_of};
ghost use Rattle.find_words.specs.Programs.{run};
ghost use Rattle.find_words.specs.declared.predicate.Operation.{Operation as AnOperation};

use crate::conditions::{Condition, holds};
use crate::words::characters;
use dired_text::Memory;
use std::alloc::Global;
use std::marker::Model;
use tree_core::Meta;

// A step of a program, which works on a stack of truth values.
#[derive(Debug, Drop)]
pub(crate) enum Operation {
    // Puts `true` on the stack.
    Everything,
    // Puts there whether a condition holds.
    Test(Condition),
    // Puts in place of the last value its opposite.
    Not,
    // Puts in place of the last two whether both are true.
    And,
    // Puts in place of the last two whether one of them is true.
    Or,
}

/// A condition on files. It is kept as a program, each operation behind its operands, so that no depth of brackets overflows a
/// stack, and seen as an expression.
#[derive(Debug, Drop)]
pub struct Predicate {
    operations: Vec<Operation>,
}

impl Model for Predicate {
    ghost use Rattle.std.specs.Prelude.{◌≡◌};
    ghost use Rattle.find_words.specs.Expressions.{Expression};
    ghost use Rattle.find_words.specs.Programs.{program_of, expression_of, expression_of-program_of};
    ghost use Rattle.find_words.specs.contracts.predicate.Operation as operation;
    ghost use Rattle.std.specs.Coded.{code_by, coded_list};

    ghost Value = { Expression };

    ghost coded = { code_by _ (coded_list operation.the_row.coded) program_of expression_of expression_of-program_of };

    ghost view = { λ p. expression_of p.operations.items };

    ghost invariant = { λ p. program_of (expression_of p.operations.items) ≡ p.operations.items };
}

impl Predicate {
    ghost use Rattle.std.specs.Prelude.{◌≡◌, IfOk};
    ghost use Rattle.std.specs.Str.{chars};
    ghost use Rattle.find_words.specs.Expressions.{value_of};
    ghost use Rattle.find_words.specs.Programs.{program_of, expression_of};

    pub(crate) fn of_program(operations: Vec<Operation>) -> Self
        requires { program_of (expression_of operations.items) ≡ operations.items }
        ensures { result ≡ expression_of operations.items }
    {
        Predicate { operations }
    }

    fn operations(&self) -> &[Operation]
        ensures { result.now ≡ program_of self.now }
    {
        self.operations.as_slice()
    }

    /// Whether a file of this last name and these fields meets the predicate at a moment in seconds since 1970.
    pub fn is_met_by(
        &self,
        alloc: Global,
        name: &str,
        meta: &Meta,
        now: i64,
    ) -> Result<bool, Memory>
        ensures { IfOk result (λ b. b ≡ value_of now (chars name.now) meta.now self.now) }
    {
        let characters = characters(alloc, name)?;
        is_met(alloc, self, &characters, meta, now)
    }
}

// Whether a file of this last name and these fields meets a predicate at a moment in seconds since 1970.
fn is_met(
    alloc: Global,
    predicate: &Predicate,
    name: &[char],
    meta: &Meta,
    now: i64,
) -> Result<bool, Memory>
    ensures { IfOk result (λ b. b ≡ value_of now name.now meta.now predicate.now) }
{
    let mut stack = Stack::new(alloc);
    let mut rest = predicate.operations();
    while let Some((operation, later)) = rest.split_first() {
        carry_out(alloc, operation, &mut stack, name, meta, now)?;
        rest = later;
    }
    Ok(stack.pop())
}

// Carries out one operation.
fn carry_out(
    alloc: Global,
    operation: &Operation,
    stack: &mut Stack,
    name: &[char],
    meta: &Meta,
    now: i64,
) -> Result<(), Memory>
    ensures { OnOk result ((later : List AnOperation) →
        run now name.now meta.now (operation.now ∷ later) stack.old ≡
        run now name.now meta.now later stack.new) }
{
    match operation {
        Operation::Everything => stack.push(true),
        Operation::Test(condition) => stack.push(holds(alloc, condition, name, meta, now)?),
        Operation::Not => {
            let value = stack.pop();
            stack.push(!value)
        }
        Operation::And => {
            let second = stack.pop();
            let first = stack.pop();
            stack.push(first && second)
        }
        Operation::Or => {
            let second = stack.pop();
            let first = stack.pop();
            stack.push(first || second)
        }
    }
}

// A stack of truth values, seen as their list, the last one first.
#[derive(Drop)]
struct Stack {
    values: Vec<bool>,
}

impl Model for Stack {
    ghost use Rattle.std.specs.Prelude.{List, Bool, reverse};

    ghost Value = { List Bool };

    ghost view = { λ s. reverse s.values.items };
}

impl Stack {
    ghost use Rattle.std.specs.Prelude.{◌≡◌, ◌∷◌, [], OnOk};
    ghost use Rattle.find_words.specs.Programs.{first_of, behind_first};

    fn new(alloc: Global) -> Self
        ensures { result ≡ [] }
    {
        Stack {
            values: Vec::new(alloc),
        }
    }

    fn push(&mut self, value: bool) -> Result<(), Memory>
        ensures { OnOk result (self.new ≡ value ∷ self.old) }
    {
        self.values.push(value)?;
        Ok(())
    }

    // Takes the last value off. Of an empty stack it is `true`.
    fn pop(&mut self) -> bool
        ensures value { result ≡ first_of self.old }
        ensures rest { self.new ≡ behind_first self.old }
    {
        match self.values.pop() {
            Some(value) => value,
            None => true,
        }
    }
}
