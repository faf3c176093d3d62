// Predicates on files, and the files of a tree that meet them.
use crate::answer::{push, word};
use case_tables::{RowFault, TreeRows, entry_of, mode_of, number_of, text_of, time_of};
use dired_text::Text;
use find_listing::{FindEnd, FindFault, Predicate, find, read_find};
use std::alloc::Global;
use tree_core::{Kind, Meta};

/// What is answered to a row of predicates: whether a text is one, whether a file meets it, or the files of a tree that do.
pub fn answer(alloc: Global, fields: &[&str]) -> Result<String, RowFault> {
    match fields {
        ["find-words", text] => read(alloc, text_of(alloc, text)?.as_str()),
        ["find-meets", text, now, name, shown @ ..] => {
            let predicate = predicate_of(alloc, text_of(alloc, text)?.as_str())?;
            let name = text_of(alloc, name)?;
            let meta = meta_of(alloc, shown)?;
            let is_met = predicate.is_met_by(alloc, name.as_str(), &meta, time_of(now)?)?;
            Ok(word(alloc, if is_met { "yes" } else { "no" })?)
        }
        ["find", text, now, entries @ ..] => {
            let predicate = predicate_of(alloc, text_of(alloc, text)?.as_str())?;
            found(alloc, &predicate, time_of(now)?, entries)
        }
        _ => Err(RowFault::Bad),
    }
}

fn read(alloc: Global, text: &str) -> Result<String, RowFault> {
    match read_find(alloc, text) {
        Ok(_) => Ok(word(alloc, "ok")?),
        Err(FindFault::Bad { word }) => Ok(format!(in alloc; "refused: word {word}")?),
        Err(FindFault::Memory) => Err(RowFault::Memory),
    }
}

// The predicate of a text that is to be one.
fn predicate_of(alloc: Global, text: &str) -> Result<Predicate, RowFault> {
    match read_find(alloc, text) {
        Ok(predicate) => Ok(predicate),
        Err(FindFault::Bad { word: _ }) => Err(RowFault::Bad),
        Err(FindFault::Memory) => Err(RowFault::Memory),
    }
}

// The fields of a file.
fn meta_of(alloc: Global, fields: &[&str]) -> Result<Meta, RowFault> {
    match fields {
        [kind, mode, links, size, time] => Ok(Meta {
            kind: kind_of(kind)?,
            mode: mode_of(mode)?,
            links: links_of(links)?,
            owner: Text::copy_of(alloc, "u")?,
            group: Text::copy_of(alloc, "g")?,
            size: number_of(size)?,
            mtime: time_of(time)?,
            number: 0,
            target: Text::copy_of(alloc, "")?,
        }),
        _ => Err(RowFault::Bad),
    }
}

fn kind_of(word: &str) -> Result<Kind, RowFault> {
    match word {
        "file" => Ok(Kind::File),
        "dir" => Ok(Kind::Dir),
        "link" => Ok(Kind::Link),
        _ => Err(RowFault::Bad),
    }
}

fn links_of(word: &str) -> Result<u32, RowFault> {
    match u32::try_from(number_of(word)?) {
        Ok(links) => Ok(links),
        Err(_) => Err(RowFault::Bad),
    }
}

// The names of the lines that are found in the tree of these entries.
fn found(
    alloc: Global,
    predicate: &Predicate,
    now: i64,
    entries: &[&str],
) -> Result<String, RowFault> {
    let mut rows = TreeRows::new(alloc);
    for entry in entries {
        push_entry(alloc, &mut rows, text_of(alloc, entry)?.as_str())?;
    }
    let mut tree = rows.build()?;
    let lines = match find(alloc, &mut tree, predicate, now) {
        Ok(lines) => lines,
        Err(FindEnd::TreeFault(_)) => return Err(RowFault::Bad),
        Err(FindEnd::Memory) => return Err(RowFault::Memory),
    };
    let mut answer = String::new(alloc);
    for line in &lines {
        push(&mut answer, line.name.as_str())?;
    }
    Ok(answer)
}

// Adds the entry of a row.
fn push_entry(alloc: Global, rows: &mut TreeRows, row: &str) -> Result<(), RowFault> {
    let mut fields = Vec::new(alloc);
    for field in row.split(' ') {
        fields.push(field)?;
    }
    rows.push(0, entry_of(alloc, &fields)?)
}
