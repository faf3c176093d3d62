// Journals.
use crate::answer::push;
use case_tables::{RowFault, bytes_of, push_field};
use commit_journal::{JournalFault, can_encode, decode, encode};
use commit_steps::{Step, Steps};
use dired_text::Memory;
use std::alloc::Global;

/// What is answered to a journal: its steps, and behind `written` the journal of version 2 of these; or where it can't be read.
pub fn answer(alloc: Global, bytes: &str) -> Result<String, RowFault> {
    match decode(alloc, &bytes_of(alloc, bytes)?) {
        Ok(steps) => shown(alloc, &steps),
        Err(JournalFault::Memory) => Err(RowFault::Memory),
        Err(JournalFault::BadJournal(offset)) => Ok(format!(in alloc; "bad at {offset}")?),
    }
}

/// What is read of a journal of version 2 of so many directories, whose paths have so many bytes and are the same: how many steps, or
/// where it can't be read.
pub fn long(alloc: Global, count: &str, length: &str) -> Result<String, RowFault> {
    let (Ok(count), Ok(length)) = (count.parse::<u32>(), length.parse::<u32>()) else {
        return Err(RowFault::Bad);
    };
    let mut bytes = Vec::new(alloc);
    bytes.extend_from_slice(b"WDJ2")?;
    bytes.extend_from_slice(&count.to_be_bytes())?;
    push_dir(&mut bytes, 0, length)?;
    for place in 0..length {
        bytes.push(if place % 256 == 255 { b'/' } else { b'a' })?;
    }
    for _ in 1..count {
        push_dir(&mut bytes, length, 0)?;
    }
    match decode(alloc, &bytes) {
        Ok(steps) => Ok(format!(in alloc; "steps {}", steps.as_slice().len())?),
        Err(JournalFault::Memory) => Err(RowFault::Memory),
        Err(JournalFault::BadJournal(offset)) => Ok(format!(in alloc; "bad at {offset}")?),
    }
}

// The head of a directory's step: how many bytes its path shares with the one before, and how many others it has.
fn push_dir(bytes: &mut Vec<u8>, shared: u32, others: u32) -> Result<(), Memory> {
    bytes.push(b'D')?;
    bytes.extend_from_slice(&shared.to_be_bytes())?;
    bytes.extend_from_slice(&others.to_be_bytes())?;
    Ok(())
}

fn shown(alloc: Global, steps: &Steps) -> Result<String, RowFault> {
    let mut answer = String::new(alloc);
    for step in steps.as_slice() {
        push_step(&mut answer, step)?;
    }
    if can_encode(steps) {
        push(&mut answer, "written")?;
        answer.push_str(" ")?;
        push_field(&mut answer, encode(alloc, steps)?.as_slice())?;
    }
    Ok(answer)
}

fn push_step(answer: &mut String, step: &Step) -> Result<(), Memory> {
    match step {
        Step::MakeDir(path) => {
            push(answer, "mkdir")?;
            push(answer, path.text()?.as_str())
        }
        Step::Rename(from, to) => {
            push(answer, "rename")?;
            push(answer, from.text()?.as_str())?;
            push(answer, to.text()?.as_str())
        }
        Step::Mode(path, old, new) => {
            push(answer, "mode")?;
            push(answer, path.text()?.as_str())?;
            let modes = format!(in *answer.allocator(); " {old:o} {new:o}")?;
            answer.push_str(modes.as_str())?;
            Ok(())
        }
    }
}
