// Lines of listings.
use crate::answer::{field, push, word};
use case_tables::{RowFault, bytes_of, number_of, time_of};
use dired_text::{Memory, Text};
use listing_text::{
    Field, Line, LineFault, Switches, Widths, line_text, minute_of, order, read_line, read_switches,
};
use std::alloc::Global;
use tree_core::Kind;

/// What is answered to a row of lines, dates and switches.
pub fn answer(alloc: Global, fields: &[&str]) -> Result<String, RowFault> {
    match fields {
        ["line", text] => read(alloc, &bytes_of(alloc, text)?),
        ["date", minute] => date(alloc, time_of(minute)?),
        ["minute", second] => {
            let minute = minute_of(time_of(second)?);
            Ok(format!(in alloc; "{minute}")?)
        }
        ["switches", text] => switches(alloc, text),
        ["order", letters, words @ ..] => ordered(alloc, letters, words),
        _ => Err(RowFault::Bad),
    }
}

fn read(alloc: Global, text: &[u8]) -> Result<String, RowFault> {
    match read_line(alloc, text) {
        Ok((mark, line)) => shown(alloc, mark, &line),
        Err(LineFault::Memory) => Err(RowFault::Memory),
        Err(LineFault::Bad { field, place }) => {
            let name = field_name(field);
            Ok(format!(in alloc; "bad {name} {place}")?)
        }
    }
}

// Mark, kind, mode, links, owner, group, size, minute, name and target.
fn shown(alloc: Global, mark: u8, line: &Line) -> Result<String, RowFault> {
    let mark = char::from(mark).to_string(alloc)?;
    let mut text = field(alloc, mark.as_str())?;
    let kind = match line.kind {
        Kind::File => "file",
        Kind::Dir => "dir",
        Kind::Link => "link",
    };
    let numbers = format!(in alloc; " {kind} {:o} {}", line.mode, line.links)?;
    text.push_str(numbers.as_str())?;
    push(&mut text, line.owner.as_str())?;
    push(&mut text, line.group.as_str())?;
    let numbers = format!(in alloc; " {} {}", line.size, line.minute)?;
    text.push_str(numbers.as_str())?;
    push(&mut text, line.name.as_str())?;
    push(&mut text, line.target.as_str())?;
    Ok(text)
}

fn field_name(field: Field) -> &'static str {
    match field {
        Field::Mark => "Mark",
        Field::Kind => "Kind",
        Field::Mode => "Mode",
        Field::Links => "Links",
        Field::Owner => "Owner",
        Field::Group => "Group",
        Field::Size => "Size",
        Field::Date => "Date",
        Field::Name => "Name",
        Field::Target => "Target",
    }
}

// A plain file of this name, size and minute.
fn file(alloc: Global, name: &str, size: u64, minute: i64) -> Result<Line, Memory> {
    Ok(Line {
        kind: Kind::File,
        mode: 0o644,
        links: 1,
        owner: Text::copy_of(alloc, "u")?,
        group: Text::copy_of(alloc, "g")?,
        size,
        minute,
        name: Text::copy_of(alloc, name)?,
        target: Text::copy_of(alloc, "")?,
    })
}

// The line of a file of this minute.
fn date(alloc: Global, minute: i64) -> Result<String, RowFault> {
    let widths = Widths {
        links: 1,
        owner: 1,
        group: 1,
        size: 1,
    };
    let line = line_text(alloc, b' ', &file(alloc, "a", 0, minute)?, &widths)?;
    let mut text = String::new(alloc);
    case_tables::push_field(&mut text, line.as_slice())?;
    Ok(text)
}

fn switches(alloc: Global, text: &str) -> Result<String, RowFault> {
    let Some(
        Switches {
            all,
            by_time,
            by_size,
            reverse,
        },
    ) = read_switches(text)
    else {
        return Ok(word(alloc, "none")?);
    };
    Ok(format!(in alloc; "all {all} by-time {by_time} by-size {by_size} reverse {reverse}")?)
}

// The names of files in the order of a listing with these switches. A file is written as its name, size and minute.
fn ordered(alloc: Global, letters: &str, words: &[&str]) -> Result<String, RowFault> {
    let Some(switches) = read_switches(letters) else {
        return Err(RowFault::Bad);
    };
    let mut lines = Vec::new(alloc);
    for word in words {
        lines.push(file_of(alloc, word)?)?;
    }
    order(&mut lines, &switches);
    let mut text = String::new(alloc);
    for line in &lines {
        push(&mut text, line.name.as_str())?;
    }
    Ok(text)
}

fn file_of(alloc: Global, word: &str) -> Result<Line, RowFault> {
    let Some((name, numbers)) = word.split_once(',') else {
        return Err(RowFault::Bad);
    };
    let Some((size, minute)) = numbers.split_once(',') else {
        return Err(RowFault::Bad);
    };
    Ok(file(alloc, name, number_of(size)?, time_of(minute)?)?)
}
