// A case, as its rows are read.
use crate::row::{Row, read_row};
use crate::running::run_on;
use case_tables::{RowFault, Schedule, Table, TreeRows, head_text, tree_behind};
use dired_text::{Bytes, MemShelf, Text};
use mem_tree::MemTree;
use std::alloc::Global;
use std::mem;

/// The tree, the inputs and the schedule that the rows of a case have said.
#[derive(Drop)]
pub struct Case {
    alloc: Global,
    entries: TreeRows,
    inputs: Vec<(Text, Vec<u8>)>,
    // whether the last input has a line
    has_line: bool,
    schedule: Schedule,
    // the tree that the last run left
    tree: Option<MemTree>,
}

impl Case {
    /// A case that has said nothing.
    pub fn new(alloc: Global) -> Self {
        Case {
            alloc,
            entries: TreeRows::new(alloc),
            inputs: Vec::new(alloc),
            has_line: false,
            schedule: Schedule::new(alloc),
            tree: None,
        }
    }

    // Takes the row of a line, and answers what is printed behind it. `Bad` where it can't stand here, and `BadAt` with the line of
    // an entry that can't stand in the tree.
    fn take_row(&mut self, line: u64, row: Row) -> Result<String, RowFault> {
        match row {
            Row::Case(name) => {
                *self = Case::new(self.alloc);
                return Ok(head_text(self.alloc, name.as_str())?);
            }
            Row::Run(words) => return self.run(&words),
            Row::Entry(entry) => self.entries.push(line, entry)?,
            Row::Input(name) => {
                self.inputs.push((name, Vec::new(self.alloc)))?;
                self.has_line = false;
            }
            Row::Line(bytes) => self.take_line(bytes.as_slice())?,
            Row::Schedule(row) => self.schedule.take(row)?,
            Row::Blank => {}
        }
        Ok(String::new(self.alloc))
    }

    // The next line of the last input. A newline stands between two lines.
    fn take_line(&mut self, bytes: &[u8]) -> Result<(), RowFault> {
        let Some(input) = self.inputs.last_mut() else {
            return Err(RowFault::Bad);
        };
        if self.has_line {
            input.1.push(b'\n')?;
        }
        input.1.extend_from_slice(bytes)?;
        self.has_line = true;
        Ok(())
    }

    // Runs the words on the tree of the entries, or on the one that the last run left, and answers what is printed of it.
    fn run(&mut self, words: &[String]) -> Result<String, RowFault> {
        let mut tree = match self.tree.take() {
            Some(tree) => tree,
            None => self.entries.build()?,
        };
        let shelf = self.shelf()?;
        let schedule = mem::replace(&mut self.schedule, Schedule::new(self.alloc));
        let image = schedule.image;
        let mut text = run_on(self.alloc, words, &mut tree, shelf, schedule)?;
        self.tree = Some(tree_behind(self.alloc, &mut text, tree, image)?);
        Ok(text)
    }

    // The inputs, of which these reads fail.
    fn shelf(&self) -> Result<MemShelf, RowFault> {
        let mut files = Vec::new(self.alloc);
        for input in &self.inputs {
            files.push((input.0.copy()?, Bytes::copy_of(self.alloc, &input.1)?))?;
        }
        let reads = Vec::from_slice(self.alloc, &self.schedule.reads)?;
        Ok(MemShelf::new(self.alloc, files, reads)?)
    }
}

impl Table for Case {
    fn take(&mut self, number: u64, line: &str) -> Result<String, RowFault> {
        let row = read_row(self.alloc, line)?;
        self.take_row(number, row)
    }
}
