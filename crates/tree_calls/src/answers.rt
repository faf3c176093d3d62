// What a call answered, and how it is printed.
use dired_text::{Bytes, Failed, Name, PatternsError};
use regex::Regex;
use std::io;
use tree_core::{Kind, LookEnd, Meta, ReadEnd};

/// What a call answered.
#[derive(Drop)]
pub enum Answer {
    /// No call was made: the line names none, or has words that it doesn't take.
    NotMade,
    Done,
    Failed,
    Memory,
    TooLarge,
    Kind(Option<Kind>),
    Mode(u16),
    IsEmpty(bool),
    Meta(Meta),
    Names(Vec<Name>),
    Bytes(Bytes),
    /// The number that a text of the shell exited with.
    Exit(u8),
    /// A pattern was refused.
    Refused,
}

impl Answer {
    /// That of a changing call.
    pub fn of_change(answer: Result<(), Failed>) -> Self {
        match answer {
            Ok(()) => Answer::Done,
            Err(_) => Answer::Failed,
        }
    }

    /// That of a look that ended without an answer.
    pub fn of_look_end(end: LookEnd) -> Self {
        match end {
            LookEnd::Failed => Answer::Failed,
            LookEnd::Memory => Answer::Memory,
        }
    }

    /// That of a read that ended without bytes.
    pub fn of_read_end(end: ReadEnd) -> Self {
        match end {
            ReadEnd::Failed => Answer::Failed,
            ReadEnd::Memory => Answer::Memory,
            ReadEnd::TooLarge => Answer::TooLarge,
        }
    }

    /// That of the shell.
    pub fn of_shell(answer: Result<u8, Failed>) -> Self {
        match answer {
            Ok(number) => Answer::Exit(number),
            Err(_) => Answer::Failed,
        }
    }

    /// That of a pattern.
    pub fn of_pattern(answer: Result<Regex, PatternsError>) -> Self {
        match answer {
            Ok(_) => Answer::Done,
            Err(PatternsError::Refused) => Answer::Refused,
            Err(PatternsError::Memory) => Answer::Memory,
        }
    }

    /// Prints the line of the call and the answer behind it.
    pub fn print(&self, rt: HostRuntime, line: &str) -> io::Result<()> {
        match self {
            Answer::NotMade => println!(rt; "{line}: no such call"),
            Answer::Done => println!(rt; "{line}: done"),
            Answer::Failed => println!(rt; "{line}: failed"),
            Answer::Memory => println!(rt; "{line}: no memory"),
            Answer::TooLarge => println!(rt; "{line}: too large"),
            Answer::Kind(Some(kind)) => {
                let kind = kind_word(*kind);
                println!(rt; "{line}: {kind}")
            }
            Answer::Kind(None) => println!(rt; "{line}: nothing"),
            Answer::Mode(mode) => println!(rt; "{line}: {mode:o}"),
            Answer::IsEmpty(is_empty) => println!(rt; "{line}: {is_empty}"),
            Answer::Meta(meta) => print_meta(rt, line, meta),
            Answer::Names(names) => print_names(rt, line, names),
            Answer::Bytes(bytes) => {
                let count = bytes.as_slice().len();
                println!(rt; "{line}: {count} bytes")
            }
            Answer::Exit(number) => println!(rt; "{line}: exit {number}"),
            Answer::Refused => println!(rt; "{line}: refused"),
        }
    }
}

fn kind_word(kind: Kind) -> &'static str {
    match kind {
        Kind::File => "file",
        Kind::Dir => "directory",
        Kind::Link => "link",
    }
}

fn print_meta(rt: HostRuntime, line: &str, meta: &Meta) -> io::Result<()> {
    let kind = kind_word(meta.kind);
    let (mode, links, size, number) = (meta.mode, meta.links, meta.size, meta.number);
    let (owner, group) = (meta.owner.as_str(), meta.group.as_str());
    let target = meta.target.as_str();
    println!(rt; "{line}: {kind} {mode:o} {links} {owner} {group} {size} {number} {target}")
}

fn print_names(rt: HostRuntime, line: &str, names: &[Name]) -> io::Result<()> {
    print!(rt; "{line}:")?;
    for name in names {
        let name = name.as_str();
        print!(rt; " {name}")?;
    }
    println!(rt; "")
}
