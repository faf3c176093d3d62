// Which calls of a run fail.
ghost use Rattle.std.specs.Prelude.{◌≡◌, OnOk};
ghost use Rattle.mem_tree.specs.MemHistory.{told, history_told};

use crate::RowFault;
use crate::fields::number_of;
use dired_text::Memory;
use mem_tree::MemTree;
use std::alloc::Global;

// How many changing calls fail behind the one at which a run is stopped: more than any run makes on its way out.
const CALLS_BEHIND_STOP: u64 = 1_000;

/// What a row says of the calls of the next run, each counted from 0.
#[derive(Clone, Copy, Debug, PartialEq, Eq)]
pub enum ScheduleRow {
    /// This changing call fails, and whether it is done all the same.
    FailChange(u64, bool),
    /// This look fails.
    FailLook(u64),
    /// This read of an input fails.
    FailRead(u64),
    /// This write of the output fails.
    FailWrite(u64),
    /// The run is stopped behind this changing call, and the image of this number stands then.
    Stop { call: u64, image: u64 },
}

/// What the fields of a row say of the next run.
///
/// # Errors
/// `Bad` where they say nothing of it.
pub fn schedule_row_of(fields: &[&str]) -> Result<ScheduleRow, RowFault> {
    match fields {
        ["fail-change", call, "done"] => Ok(ScheduleRow::FailChange(number_of(call)?, true)),
        ["fail-change", call, "not-done"] => Ok(ScheduleRow::FailChange(number_of(call)?, false)),
        ["fail-look", call] => Ok(ScheduleRow::FailLook(number_of(call)?)),
        ["fail-read", call] => Ok(ScheduleRow::FailRead(number_of(call)?)),
        ["fail-write", call] => Ok(ScheduleRow::FailWrite(number_of(call)?)),
        ["stop", call, image] => Ok(ScheduleRow::Stop {
            call: number_of(call)?,
            image: number_of(image)?,
        }),
        _ => Err(RowFault::Bad),
    }
}

/// The calls of one run that fail, each counted from 0.
#[derive(Drop)]
pub struct Schedule {
    /// Changing calls, and whether each is done all the same. The `sync` before the run is number 0.
    pub changes: Vec<(u64, bool)>,
    pub looks: Vec<u64>,
    pub reads: Vec<u64>,
    pub writes: Vec<u64>,
    /// The number of the image that stands where the run is stopped.
    pub image: Option<u64>,
}

impl Schedule {
    /// No call fails.
    pub fn new(alloc: Global) -> Self {
        Schedule {
            changes: Vec::new(alloc),
            looks: Vec::new(alloc),
            reads: Vec::new(alloc),
            writes: Vec::new(alloc),
            image: None,
        }
    }

    /// Takes what a row says.
    pub fn take(&mut self, row: ScheduleRow) -> Result<(), Memory> {
        match row {
            ScheduleRow::FailChange(call, is_done) => self.fail_change(call, is_done)?,
            ScheduleRow::FailLook(call) => self.looks.push(call)?,
            ScheduleRow::FailRead(call) => self.reads.push(call)?,
            ScheduleRow::FailWrite(call) => self.writes.push(call)?,
            ScheduleRow::Stop { call, image } => self.stop(call, image)?,
        }
        Ok(())
    }

    // This changing call of the run fails.
    fn fail_change(&mut self, call: u64, is_done: bool) -> Result<(), Memory> {
        self.changes.push((call.saturating_add(1), is_done))?;
        Ok(())
    }

    // No changing call behind this one is done, so what a crash may leave then is what it may leave behind this call.
    fn stop(&mut self, call: u64, image: u64) -> Result<(), Memory> {
        for behind in 1..CALLS_BEHIND_STOP {
            self.fail_change(call.saturating_add(behind), false)?;
        }
        self.image = Some(image);
        Ok(())
    }

    /// Has the calls of a tree fail from here on, where its `sync` before the run comes first.
    pub fn begin(&self, tree: &mut MemTree) -> Result<(), Memory>
        ensures scheduled { OnOk result (told tree.new ≡ record (told tree.old) {
          failing_looks = self.now.looks.items;
          looks_made = 0;
          failing_changes = self.now.changes.items;
          changes_made = 0;
        }) }
        ensures history { history_told tree.new ≡ history_told tree.old }
    {
        tree.fail_looks(&self.looks)?;
        tree.fail_changes(&self.changes)
    }
}
