// The objects in memory that stand for inputs, the output, the shell and what builds patterns, with schedules of calls that fail.
use crate::answer::push;
use case_tables::{RowFault, bytes_of, number_of, text_of};
use dired_text::{
    Bytes, Failed, MemPatterns, MemShelf, MemShell, MemSink, Patterns, PatternsError, Shelf,
    ShelfEnd, Shell, Sink, Text,
};
use std::alloc::Global;

/// What is answered to a row of calls of one object: what each call answers, and what the object keeps.
pub fn answer(alloc: Global, fields: &[&str]) -> Result<String, RowFault> {
    match fields {
        ["shelf", fails, files, reads @ ..] => shelf(alloc, fails, files, reads),
        ["sink", fails, pieces @ ..] => sink(alloc, fails, pieces),
        ["shell", fails, exit, texts @ ..] => shell(alloc, fails, exit, texts),
        ["patterns", fails, texts @ ..] => patterns(alloc, fails, texts),
        _ => Err(RowFault::Bad),
    }
}

// The numbers of the calls that fail, joined by `,`.
fn calls_of(alloc: Global, field: &str) -> Result<Vec<u64>, RowFault> {
    let mut calls = Vec::new(alloc);
    if field != "\\e" {
        for call in field.split(',') {
            calls.push(number_of(call)?)?;
        }
    }
    Ok(calls)
}

// Files are written as `NAME=BYTES`, joined by `,`, and reads as `NAME:LIMIT`.
fn shelf(alloc: Global, fails: &str, files: &str, reads: &[&str]) -> Result<String, RowFault> {
    let mut all = Vec::new(alloc);
    for file in files.split(',') {
        let Some((name, bytes)) = file.split_once('=') else {
            return Err(RowFault::Bad);
        };
        all.push((
            text_of(alloc, name)?,
            Bytes::from_vec(bytes_of(alloc, bytes)?),
        ))?;
    }
    let mut shelf = MemShelf::new(alloc, all, calls_of(alloc, fails)?)?;
    let mut answer = String::new(alloc);
    for read in reads {
        let Some((name, limit)) = read.split_once(':') else {
            return Err(RowFault::Bad);
        };
        push_read(alloc, &mut answer, &mut shelf, name, number_of(limit)?)?;
    }
    Ok(answer)
}

fn push_read<H: Shelf>(
    alloc: Global,
    answer: &mut String,
    shelf: &mut H,
    name: &str,
    limit: u64,
) -> Result<(), RowFault> {
    match shelf.read(alloc, name, limit) {
        Ok(bytes) => {
            push(answer, "read")?;
            answer.push_str(" ")?;
            case_tables::push_field(answer, bytes.as_slice())?;
        }
        Err(ShelfEnd::Absent) => push(answer, "absent")?,
        Err(ShelfEnd::TooLarge) => push(answer, "too-large")?,
        Err(ShelfEnd::Failed) => push(answer, "failed")?,
        Err(ShelfEnd::Memory) => return Err(RowFault::Memory),
    }
    Ok(())
}

fn sink(alloc: Global, fails: &str, pieces: &[&str]) -> Result<String, RowFault> {
    let mut sink = MemSink::new(alloc, calls_of(alloc, fails)?)?;
    let mut answer = String::new(alloc);
    for piece in pieces {
        let put = sink.put(&bytes_of(alloc, piece)?);
        push(&mut answer, if put.is_ok() { "taken" } else { "failed" })?;
    }
    let behind = format!(in alloc; " short {} ", sink.short())?;
    answer.push_str(behind.as_str())?;
    case_tables::push_field(&mut answer, sink.taken())?;
    Ok(answer)
}

fn shell(alloc: Global, fails: &str, exit: &str, texts: &[&str]) -> Result<String, RowFault> {
    let Ok(exit) = exit.parse::<u8>() else {
        return Err(RowFault::Bad);
    };
    let mut shell = MemShell::new(alloc, exit, calls_of(alloc, fails)?)?;
    let mut answer = String::new(alloc);
    for text in texts {
        push_run(alloc, &mut answer, &mut shell, &text_of(alloc, text)?)?;
    }
    let behind = format!(in alloc; " short {} ran", shell.short())?;
    answer.push_str(behind.as_str())?;
    for text in shell.texts() {
        push(&mut answer, text.as_str())?;
    }
    Ok(answer)
}

fn push_run<S: Shell>(
    alloc: Global,
    answer: &mut String,
    shell: &mut S,
    text: &Text,
) -> Result<(), RowFault> {
    match shell.run(text.as_str()) {
        Ok(number) => push(answer, format!(in alloc; "{number}")?.as_str())?,
        Err(Failed) => push(answer, "failed")?,
    }
    Ok(())
}

fn patterns(alloc: Global, fails: &str, texts: &[&str]) -> Result<String, RowFault> {
    let mut patterns = MemPatterns::new(alloc, calls_of(alloc, fails)?)?;
    let mut answer = String::new(alloc);
    for text in texts {
        match patterns.build(alloc, text_of(alloc, text)?.as_str()) {
            Ok(pattern) => push(&mut answer, pattern.as_str())?,
            Err(PatternsError::Refused) => push(&mut answer, "refused")?,
            Err(PatternsError::Memory) => return Err(RowFault::Memory),
        }
    }
    Ok(answer)
}
