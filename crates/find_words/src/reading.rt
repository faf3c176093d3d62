// Predicates as texts write them.
ghost use Rattle.std.specs.Prelude.{◌≡◌, ◌+◌, ◌<◌, ◌≤◌, ◌^◌, [], true, length, Some, IfOk, MatchResult};
ghost use Rattle.std.specs.Str.{chars};
ghost use Rattle.find_words.specs.Words.{words_of as words_of_text};
ghost use Rattle.find_words.specs.Expressions as expression;
ghost use Rattle.find_words.specs.Grammar.{Reads};
ghost use Rattle.find_words.specs.Refusals.{Refuses, StopsAt, these};
ghost use Rattle.find_words.specs.Reading.{Goes, run_on, with_word, start, begun, gone_on, alternative};
ghost use Rattle.find_words.specs.Programs.{program_of, expression_of};
ghost use Rattle.find_words.specs.ReaderStates.{state_of};
ghost use Rattle.find_words.specs.WordReading.{as_words};

use crate::arguments::{Primary, Symbol, condition, symbol_of};
use crate::building::{Builder, Pending};
use crate::predicate::Operation;
use crate::word::Word;
use crate::words::{Words, words_of};
use crate::{FindFault, Predicate};
use dired_text::Memory;
use std::alloc::Global;

// What has to come next.
#[derive(Clone, Copy, Debug, PartialEq, Eq)]
pub(crate) enum Due {
    // A condition, a `!` or a bracket.
    Operand,
    // What stands behind an operand, or the end.
    Operator,
    // What belongs to the word that begins a condition.
    Argument(Primary),
}

// What was read of a predicate.
#[derive(Drop)]
pub(crate) struct Reader {
    pub(crate) due: Due,
    // How many brackets are open.
    pub(crate) depth: usize,
    pub(crate) builder: Builder,
}

impl Reader {
    fn new(alloc: Global) -> Self
        ensures { state_of result ≡ start }
    {
        Reader {
            due: Due::Operand,
            depth: 0,
            builder: Builder::new(alloc),
        }
    }

    // Takes one word more, or answers false where the text can't go on with it.
    fn take(&mut self, alloc: Global, word: &[char]) -> Result<bool, Memory>
        requires { self.old.depth < 2 ^ 63 }
        ensures goes { IfOk result
            (λ goes. Goes goes (with_word word.now (state_of self.old)) (state_of self.new)) }
        ensures depth { IfOk result (λ goes. self.new.depth ≤ self.old.depth + 1) }
    {
        match self.due {
            Due::Operand => self.begin(symbol_of(word)),
            Due::Operator => self.go_on(symbol_of(word)),
            Due::Argument(primary) => match condition(alloc, primary, word)? {
                Some(condition) => {
                    self.builder.test(condition)?;
                    self.due = Due::Operator;
                    Ok(true)
                }
                None => Ok(false),
            },
        }
    }

    // Takes a word where an operand begins.
    fn begin(&mut self, symbol: Symbol) -> Result<bool, Memory>
        requires { self.old.depth < 2 ^ 63 }
        ensures goes { IfOk result
            (λ goes. Goes goes (begun symbol self.old.depth self.old.builder) (state_of self.new)) }
        ensures depth { IfOk result (λ goes. self.new.depth ≤ self.old.depth + 1) }
    {
        match symbol {
            Symbol::Open => {
                self.builder.wait(Pending::Open)?;
                self.depth += 1;
                self.due = Due::Operand;
                Ok(true)
            }
            Symbol::Not => {
                self.builder.wait(Pending::Not)?;
                self.due = Due::Operand;
                Ok(true)
            }
            Symbol::Begins(primary) => {
                self.due = Due::Argument(primary);
                Ok(true)
            }
            Symbol::Close | Symbol::And | Symbol::Or | Symbol::Unknown => Ok(false),
        }
    }

    // Takes a word behind an operand.
    fn go_on(&mut self, symbol: Symbol) -> Result<bool, Memory>
        requires { self.old.depth < 2 ^ 63 }
        ensures goes { IfOk result
            (λ goes.
            Goes goes (gone_on symbol self.old.depth self.old.builder) (state_of self.new)) }
        ensures depth { IfOk result (λ goes. self.new.depth ≤ self.old.depth + 1) }
    {
        match symbol {
            Symbol::And => {
                self.builder.wait(Pending::And)?;
                self.due = Due::Operand;
                Ok(true)
            }
            Symbol::Or => {
                self.builder.alternative()?;
                self.builder.wait(Pending::Or)?;
                self.due = Due::Operand;
                Ok(true)
            }
            Symbol::Close if self.depth == 0 => Ok(false),
            Symbol::Close => {
                self.depth -= 1;
                self.builder.close()?;
                self.due = Due::Operator;
                Ok(true)
            }
            Symbol::Unknown => Ok(false),
            Symbol::Open | Symbol::Not | Symbol::Begins(_) => {
                self.builder.wait(Pending::And)?;
                self.begin(symbol)
            }
        }
    }

    // The predicate, where an operand is complete and no bracket is open.
    fn end(self) -> Result<Predicate, Memory>
        requires { program_of (expression_of (alternative self.builder).0) ≡
            (alternative self.builder).0 }
        ensures { IfOk result (λ predicate. predicate ≡
            expression_of (alternative self.builder).0) }
    {
        let mut builder = self.builder;
        builder.alternative()?;
        Ok(Predicate::of_program(builder.into_program()))
    }
}

/// The predicate that a text writes. Its words stand between blanks, and may hold parts in single quotes, which are taken as they
/// are. `-o` binds least, then `-a`, which may be left out, then `!` (POSIX, "find"). A text without words is true of every
/// path. More words than a number of 32 bits counts are taken for want of memory.
///
/// # Errors
/// `Bad` with the first word at which the text can't go on.
pub fn read_find(alloc: Global, text: &str) -> Result<Predicate, FindFault>
    ensures { MatchResult result (λ predicate. Reads (words_of_text (chars text.now)) predicate)
        (λ fault. Refuses fault (words_of_text (chars text.now))) }
{
    let words = words_of(alloc, text)?;
    read_words(alloc, &words)
}

// The predicate that words write.
fn read_words(alloc: Global, words: &Words) -> Result<Predicate, FindFault>
    ensures { MatchResult result (λ predicate. Reads (as_words words.now) predicate)
        (λ fault. Refuses fault (as_words words.now)) }
{
    if words.whole.is_empty() {
        return read_nothing(alloc, words.is_closed);
    }
    if words.whole.len() >= u32::MAX as usize {
        return Err(FindFault::Memory);
    }
    match take_words(alloc, &words.whole) {
        Ok(reader) => end_at(reader, &words.whole, words.is_closed),
        Err(fault) => Err(fault),
    }
}

// Without words the predicate is true of every path. A quote that isn't closed stands in the first word.
fn read_nothing(alloc: Global, is_closed: bool) -> Result<Predicate, FindFault>
    ensures { MatchResult result (λ predicate. Reads (these [] is_closed) predicate)
        (λ fault. Refuses fault (these [] is_closed)) }
{
    if !is_closed {
        return Err(FindFault::Bad { word: 1 });
    }
    Ok(everything(alloc)?)
}

// The predicate, where these words were taken.
fn end_at(reader: Reader, words: &[Word], is_closed: bool) -> Result<Predicate, FindFault>
    requires some { 0 < length words.now }
    requires most { length words.now < 4_294_967_295 }
    requires taken { run_on (Some start) words.now ≡ Some (state_of reader) }
    ensures { MatchResult result (λ predicate. Reads (these words.now is_closed) predicate)
        (λ fault. Refuses fault (these words.now is_closed)) }
{
    if !is_closed {
        return Err(FindFault::Bad {
            word: (words.len() + 1) as u32,
        });
    }
    if reader.due != Due::Operator {
        return Err(FindFault::Bad {
            word: (words.len() + 1) as u32,
        });
    }
    if reader.depth > 0 {
        return Err(FindFault::Bad {
            word: (words.len() + 1) as u32,
        });
    }
    Ok(reader.end()?)
}

// The predicate that is true of every path.
fn everything(alloc: Global) -> Result<Predicate, Memory>
    ensures { IfOk result (λ predicate. predicate ≡ expression.Everything) }
{
    let mut program = Vec::new(alloc);
    program.push(Operation::Everything)?;
    Ok(Predicate::of_program(program))
}

// Takes these words, or answers the first with which the text can't go on.
fn take_words(alloc: Global, words: &[Word]) -> Result<Reader, FindFault>
    requires { length words.now < 4_294_967_295 }
    ensures { MatchResult result (λ reader. run_on (Some start) words.now ≡ Some (state_of reader))
        (λ fault. StopsAt fault words.now) }
{
    let mut reader = Reader::new(alloc);
    let mut rest = words;
    while let Some((word, later)) = rest.split_first() {
        if !reader.take(alloc, word.as_slice())? {
            return Err(FindFault::Bad {
                word: (words.len() - later.len()) as u32,
            });
        }
        rest = later;
    }
    Ok(reader)
}
