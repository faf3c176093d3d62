// The rows of a table, by what they ask for.
use crate::{buffers, finds, journals, lines, marks, names, outside, regexps, settings, shell};
use case_tables::{RowFault, Table};
use dired_text::{Memory, Text};
use mark_table::Marks;
use omit_rules::Rules;
use std::alloc::Global;

/// What the rows so far have set.
#[derive(Drop)]
pub struct Texts {
    alloc: Global,
    marks: Marks,
    rules: Option<Rules>,
}

impl Texts {
    /// No marks, and no rules.
    pub fn new(alloc: Global) -> Result<Self, Memory> {
        Ok(Texts {
            alloc,
            marks: Marks::new(alloc)?,
            rules: None,
        })
    }

    // What is answered to a row.
    fn answer(&mut self, fields: &[&str]) -> Result<String, RowFault> {
        match fields {
            ["settings", text] => settings::read(self.alloc, text, &mut self.rules),
            ["omitted" | "omitted-of" | "guess", ..] => settings::answer(
                self.alloc,
                &self.rules,
                fields,
            ),
            ["backups", ..] => marks::backups(self.alloc, fields),
            ["marks", words @ ..] => {
                self.marks = marks::marks_of(self.alloc, words)?;
                marks::shown(self.alloc, &self.marks)
            }
            fields => match answer_alone(self.alloc, fields) {
                Some(answer) => answer,
                None => marks::answer(self.alloc, &mut self.marks, fields),
            },
        }
    }
}

// What is answered to a row that stands for itself, or None where it is another one.
fn answer_alone(alloc: Global, fields: &[&str]) -> Option<Result<String, RowFault>> {
    let answer = match fields {
        ["resolve" | "escape" | "escape-in-link" | "unescape", ..] => names::answer(alloc, fields),
        ["line" | "date" | "minute" | "order" | "switches", ..] => lines::answer(alloc, fields),
        ["regexp" | "found" | "template" | "rename", ..] => regexps::answer(alloc, fields),
        ["found-of" | "rename-of", ..] => regexps::answer_of(alloc, fields),
        ["quote" | "commands", ..] => shell::answer(alloc, fields),
        ["find-words" | "find-meets" | "find", ..] => finds::answer(alloc, fields),
        ["edits", before, after] => buffers::answer(alloc, before, after),
        ["journal", bytes] => journals::answer(alloc, bytes),
        ["long-journal", count, length] => journals::long(alloc, count, length),
        ["shelf" | "sink" | "shell" | "patterns", ..] => outside::answer(alloc, fields),
        _ => return None,
    };
    Some(answer)
}

impl Table for Texts {
    fn take(&mut self, _number: u64, line: &str) -> Result<String, RowFault> {
        let mut text = String::new(self.alloc);
        if line.is_empty() || line.starts_with('#') {
            return Ok(text);
        }
        let mut fields = Vec::new(self.alloc);
        for field in line.split(' ') {
            fields.push(field)?;
        }
        text = self.answer(&fields)?;
        text.push_str("\n")?;
        Ok(text)
    }
}
