// The rows of a table.
use case_tables::{RowFault, ScheduleRow, bytes_of, entry_of, schedule_row_of, text_of};
use dired_text::{Bytes, Text};
use mem_tree::Entry;
use std::alloc::Global;

/// What a row says.
#[derive(Drop)]
pub enum Row {
    /// Nothing.
    Blank,
    /// A case of this name begins.
    Case(Text),
    /// An entry stands in the tree.
    Entry(Entry),
    /// An input of this name begins.
    Input(Text),
    /// The next line of the input.
    Line(Bytes),
    /// Which calls of the next run fail.
    Schedule(ScheduleRow),
    /// These words are run.
    Run(Vec<String>),
}

/// What a line says.
///
/// # Errors
/// `Bad` where it is no row.
pub fn read_row(alloc: Global, line: &str) -> Result<Row, RowFault> {
    if let Some(text) = line.strip_prefix('|') {
        return Ok(Row::Line(Bytes::from_vec(bytes_of(alloc, text)?)));
    }
    if line.is_empty() || line.starts_with('#') {
        return Ok(Row::Blank);
    }
    let mut fields = Vec::new(alloc);
    for field in line.split(' ') {
        fields.push(field)?;
    }
    match fields.as_slice() {
        ["run", words @ ..] => words_of(alloc, words),
        ["dir" | "link" | "file", ..] => Ok(Row::Entry(entry_of(alloc, &fields)?)),
        ["case", name] => Ok(Row::Case(text_of(alloc, name)?)),
        ["input", name] => Ok(Row::Input(text_of(alloc, name)?)),
        fields => Ok(Row::Schedule(schedule_row_of(fields)?)),
    }
}

// The words of a run.
fn words_of(alloc: Global, fields: &[&str]) -> Result<Row, RowFault> {
    let mut words = Vec::new(alloc);
    for field in fields {
        let word = text_of(alloc, field)?;
        words.push(String::from_str(alloc, word.as_str())?)?;
    }
    Ok(Row::Run(words))
}
