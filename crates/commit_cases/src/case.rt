// A case, as its rows are read.
use crate::carrying::carry_out;
use crate::checking::check_asked;
use crate::committing::commit_asked;
use crate::recovering::recover_scheduled;
use crate::report::{answer_text, push_plan};
use crate::row::{Row, Shows, read_row};
use case_tables::{RowFault, Schedule, Table, TreeRows, head_text};
use commit_plan::plan;
use dired_text::Path;
use std::alloc::Global;
use std::mem;
use tree_core::{Changes, Confirmed, Creation, Edit, Items, Removal};

/// The tree, the changes, the confirmations and the schedule that the rows of a case have said.
#[derive(Drop)]
pub struct Case {
    alloc: Global,
    entries: TreeRows,
    edits: Vec<Edit>,
    removals: Vec<Removal>,
    creations: Vec<Creation>,
    confirms_all: bool,
    confirmed: Vec<Path>,
    schedule: Schedule,
}

impl Case {
    /// A case that has said nothing.
    pub fn new(alloc: Global) -> Self {
        Case {
            alloc,
            entries: TreeRows::new(alloc),
            edits: Vec::new(alloc),
            removals: Vec::new(alloc),
            creations: Vec::new(alloc),
            confirms_all: false,
            confirmed: Vec::new(alloc),
            schedule: Schedule::new(alloc),
        }
    }

    // Takes the row of a line, and answers what is printed behind it. `Bad` where it can't stand here, and `BadAt` with the line of
    // an entry that can't stand in the tree.
    fn take_row(&mut self, line: u64, row: Row) -> Result<String, RowFault> {
        match row {
            Row::Case(name) => {
                *self = Case::new(self.alloc);
                return Ok(head_text(self.alloc, name.as_str())?);
            }
            Row::Check => return self.run(None),
            Row::Plan { shows, carries } => return self.run(Some((shows, carries))),
            Row::Commit => return self.commit(),
            Row::Recover { back } => return self.recover(back),
            Row::Entry(entry) => self.entries.push(line, entry)?,
            Row::Schedule(row) => self.schedule.take(row)?,
            row => self.take_change(row)?,
        }
        Ok(String::new(self.alloc))
    }

    // A change or a confirmation.
    fn take_change(&mut self, row: Row) -> Result<(), RowFault> {
        match row {
            Row::Edit(edit) => self.edits.push(edit)?,
            Row::Removal(removal) => self.removals.push(removal)?,
            Row::Creation(creation) => self.creations.push(creation)?,
            Row::Confirm(path) => self.confirmed.push(path)?,
            Row::ConfirmAll => self.confirms_all = true,
            _other => {}
        }
        Ok(())
    }

    // Has the changes checked, planned and carried out as far as is asked, and answers what is printed of it. The case has said nothing
    // then.
    fn run(&mut self, asked: Option<(Shows, bool)>) -> Result<String, RowFault> {
        let mut tree = self.entries.build()?;
        let changes = self.changes()?;
        let confirmed = self.confirmed();
        let answer = check_asked(self.alloc, &mut tree, changes, &confirmed)?;
        let mut text = answer_text(self.alloc, &answer)?;
        if let (Some((shows, carries)), Ok(checked)) = (asked, &answer) {
            let plan = plan(self.alloc, checked)?;
            push_plan(&mut text, &plan, shows)?;
            if carries {
                carry_out(self.alloc, &mut text, &mut tree, &plan)?;
            }
        }
        *self = Case::new(self.alloc);
        Ok(text)
    }

    // Has the changes checked and committed, and answers what is printed of it. The case has said nothing then.
    fn commit(&mut self) -> Result<String, RowFault> {
        let tree = self.entries.build()?;
        let changes = self.changes()?;
        let confirmed = self.confirmed();
        let text = commit_asked(self.alloc, tree, changes, &confirmed, &self.schedule)?;
        *self = Case::new(self.alloc);
        Ok(text)
    }

    // Has what a commit left recovered, and answers what is printed of it. The case has said nothing then.
    fn recover(&mut self, back: bool) -> Result<String, RowFault> {
        let tree = self.entries.build()?;
        let text = recover_scheduled(self.alloc, tree, back, &self.schedule)?;
        *self = Case::new(self.alloc);
        Ok(text)
    }

    // What is confirmed.
    fn confirmed(&mut self) -> Confirmed {
        Confirmed {
            all: self.confirms_all,
            paths: Items::from_vec(mem::replace(&mut self.confirmed, Vec::new(self.alloc))),
        }
    }

    // The changes, which are of one kind.
    fn changes(&mut self) -> Result<Changes, RowFault> {
        let edits = mem::replace(&mut self.edits, Vec::new(self.alloc));
        let removals = mem::replace(&mut self.removals, Vec::new(self.alloc));
        let creations = mem::replace(&mut self.creations, Vec::new(self.alloc));
        match (edits.is_empty(), removals.is_empty(), creations.is_empty()) {
            (_, true, true) => Ok(Changes::Edits(Items::from_vec(edits))),
            (true, false, true) => Ok(Changes::Removals(Items::from_vec(removals))),
            (true, true, false) => Ok(Changes::Creations(Items::from_vec(creations))),
            _ => Err(RowFault::Bad),
        }
    }
}

impl Table for Case {
    fn take(&mut self, number: u64, line: &str) -> Result<String, RowFault> {
        let row = read_row(self.alloc, line)?;
        self.take_row(number, row)
    }
}
