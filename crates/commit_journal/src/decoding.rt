// Bytes read as a journal.
ghost use Rattle.std.specs.Prelude.{◌≡◌, ◌≤◌, ◌+◌, [], IfOk, IfErr, Ok, length, List};
ghost use Rattle.dired_text.specs.Answers.{IsOrMemory};
ghost use Rattle.commit_steps.specs.declared.step.Step.{Step as a_step};
ghost use Rattle.commit_journal.specs.declared.fault.JournalFault.TheVariants.{Memory as memory};
ghost use Rattle.commit_journal.specs.Faults.{IsRefused};
ghost use Rattle.commit_journal.specs.Grammar.{IsJournal, max_all_bytes};
ghost use Rattle.commit_journal.specs.Reading.{GivesSteps, IsFaultAt, steps_at, journal_at};

use crate::Version;
use crate::encoding::MAX_ALL_BYTES;
use crate::fault::{JournalFault, Refusal};
use crate::reading::{read_four, read_magic};
use crate::steps::read_next;
use commit_steps::Steps;
use std::alloc::Global;

/// The steps that a journal of either version spells. All of the bytes are read. What a count promises takes no memory
/// until it is read.
///
/// # Errors
/// [`JournalFault::BadJournal`] where the bytes are the text of no steps.
pub fn decode(alloc: Global, bytes: &[u8]) -> Result<Steps, JournalFault>
    // What is read is what stands there.
    ensures found { IfOk result (λ s. IsJournal s bytes.now) }
    // What stands there is read, unless memory ran out.
    ensures only { (s : List a_step) → IsJournal s bytes.now → IsOrMemory memory (Ok s) result }
    // Where nothing stands there, the fault is where the first item begins that can't be read.
    ensures refused { IfErr result (λ e. IsRefused bytes.now e) }
{
    read_journal(alloc, bytes)
}

#[tactic(auto, unfolding(crate::specs::Reading::journal_at))]
fn read_journal(alloc: Global, bytes: &[u8]) -> Result<Steps, JournalFault>
    ensures { GivesSteps bytes.now result (journal_at bytes.now) }
{
    let (version, rest) = match read_magic(bytes) {
        Ok(read) => read,
        Err(refusal) => return Err(refusal.at(bytes, bytes)),
    };
    let (count, behind) = match read_four(rest) {
        Ok(read) => read,
        Err(refusal) => return Err(refusal.at(bytes, rest)),
    };
    read_steps(alloc, version, count, bytes, behind)
}

// So many steps of the journal, from here to its end.
fn read_steps(
    alloc: Global,
    version: Version,
    count: u32,
    bytes: &[u8],
    from: &[u8],
) -> Result<Steps, JournalFault>
    requires { length from.now ≤ length bytes.now }
    ensures { GivesSteps bytes.now result (steps_at version [] max_all_bytes count from.now) }
{
    let mut steps = Vec::new(alloc);
    let mut base = Vec::new(alloc);
    let mut left = MAX_ALL_BYTES;
    let mut rest = from;
    for _ in 0..count {
        let read = match read_next(alloc, version, &base, left, rest) {
            Ok(read) => read,
            Err(refusal) => return Err(refusal.at(bytes, rest)),
        };
        left = left.saturating_sub(read.step.path_bytes());
        if steps.push(read.step).is_err() {
            return Err(JournalFault::Memory);
        }
        base = read.first;
        rest = read.rest;
    }
    if !rest.is_empty() {
        return Err(Refusal::Unreadable.at(bytes, rest));
    }
    Ok(Steps::from_vec(steps))
}

impl Refusal {
    // The fault of a journal whose rest begins with an item that is not read.
    fn at(self, bytes: &[u8], rest: &[u8]) -> JournalFault
        requires { length rest.now ≤ length bytes.now }
        ensures { IsFaultAt self bytes.now rest.now result }
    {
        match self {
            Refusal::Unreadable => JournalFault::BadJournal((bytes.len() - rest.len()) as u64),
            Refusal::Memory => JournalFault::Memory,
        }
    }
}
