// The last line of a run.
ghost use Rattle.std.specs.Prelude.{◌≡◌, ◌++◌, true};
ghost use Rattle.dired_text.specs.Outside.{TakesAs, Counts};
ghost use Rattle.run_status.specs.declared.status.Status.TheVariants.{Done as is_done, Unfinished as is_unfinished};
ghost use Rattle.run_status.specs.Statuses.{call_failed_text, number_text, text_of, has_fixed_text};
ghost use Rattle.dired_run.specs.Reports.{Said, Reported, bytes_of_output};

use crate::Status;
use crate::output::Output;
use dired_text::{Failed, Sink};
use itoa::Buffer;
use run_status::{
    COMMITTED_BUT, NEITHER, NOTHING_DECIDED, OUT_OF_MEMORY, PENDING, RUN_RECOVER, STEP, TAKEN_BACK,
    THEN, UNREADABLE_AT, USAGE, call_text,
};
use std::alloc::Global;
use tree_core::CallName;

/// Writes the output of a command that was done, or the text of its refusal, and answers the status.
pub fn report<W: Sink>(alloc: Global, ended: Result<Output, Status>, sink: &mut W) -> Status
    ensures { Reported W.Tells ended
        (W.taken sink.old) (W.taken sink.new) (W.faults sink.old) (W.faults sink.new) result }
{
    match ended {
        Ok(output) => say_output(sink, output),
        Err(status) if status.has_fixed_text() => say_fixed(sink, status),
        Err(status) => match status.text(alloc) {
            Ok(text) => say(sink, text.as_bytes(), status),
            Err(_) => say(sink, OUT_OF_MEMORY.as_bytes(), Status::Memory),
        },
    }
}

// Writes the output of a command that was done.
fn say_output<W: Sink>(sink: &mut W, output: Output) -> Status
    ensures { Said W.Tells is_done (bytes_of_output output)
        (W.taken sink.old) (W.taken sink.new) (W.faults sink.old) (W.faults sink.new) result }
{
    match output {
        Output::Lines(lines) => say(sink, lines.as_slice(), Status::Done),
        Output::Nothing => say(sink, b"nothing to recover\n", Status::Done),
        Output::Edited => say(sink, b"recovered: edited\n", Status::Done),
        Output::Old => say(sink, b"recovered: old\n", Status::Done),
        Output::Cleared => say(sink, b"recovered: cleared\n", Status::Done),
    }
}

// Writes the text of a status, and answers the status or the write fault that holds its number.
fn say<W: Sink>(sink: &mut W, text: &[u8], status: Status) -> Status
    ensures { Said W.Tells status text.now
        (W.taken sink.old) (W.taken sink.new) (W.faults sink.old) (W.faults sink.new) result }
{
    match sink.put(text) {
        Ok(()) => status,
        Err(Failed) => Status::WriteFault {
            held: status.number(),
        },
    }
}

// The same for a text that takes no memory.
fn say_fixed<W: Sink>(sink: &mut W, status: Status) -> Status
    requires { has_fixed_text status ≡ true }
    ensures { Said W.Tells status (text_of status)
        (W.taken sink.old) (W.taken sink.new) (W.faults sink.old) (W.faults sink.new) result }
{
    match put_fixed(sink, &status) {
        Ok(()) => status,
        Err(Failed) => Status::WriteFault {
            held: status.number(),
        },
    }
}

// Writes a text that takes no memory.
fn put_fixed<W: Sink>(sink: &mut W, status: &Status) -> Result<(), Failed>
    requires { has_fixed_text status.now ≡ true }
    ensures taken { W.Tells → TakesAs result (text_of status.now)
        (W.taken sink.old) (W.taken sink.new) }
    ensures count { Counts result (W.faults sink.old) (W.faults sink.new) }
{
    match status {
        Status::Done | Status::WriteFault { .. } => sink.put(b""),
        Status::Usage => sink.put(USAGE.as_bytes()),
        Status::Memory => sink.put(OUT_OF_MEMORY.as_bytes()),
        Status::Pending => sink.put(PENDING.as_bytes()),
        Status::TreeFault { first } => put_call(sink, "dired: ", *first, NOTHING_DECIDED),
        Status::RolledBack { first } => put_call(sink, "dired: ", *first, TAKEN_BACK),
        Status::Unfinished { first, second } => put_calls(sink, *first, *second),
        Status::Unclean { first } => put_call(sink, COMMITTED_BUT, *first, RUN_RECOVER),
        Status::BadJournal { offset } => put_number(sink, UNREADABLE_AT, *offset, "\n"),
        Status::Strange { step } => put_number(sink, STEP, *step, NEITHER),
        Status::ReadFault { .. }
        | Status::Foreign { .. }
        | Status::Missing { .. }
        | Status::BadBuffer { .. }
        | Status::Faulty { .. }
        | Status::Unconfirmed { .. }
        | Status::Stale { .. }
        | Status::BadScript { .. }
        | Status::TooLarge { .. } => unreachable!(),
    }
}

// Writes what is said of a failed call, and of another one on the way back.
fn put_calls<W: Sink>(sink: &mut W, first: CallName, second: CallName) -> Result<(), Failed>
    ensures taken { W.Tells → TakesAs result (text_of (is_unfinished first second))
        (W.taken sink.old) (W.taken sink.new) }
    ensures count { Counts result (W.faults sink.old) (W.faults sink.new) }
{
    match put_call(sink, "dired: ", first, THEN) {
        Ok(()) => put_call(sink, "", second, RUN_RECOVER),
        Err(Failed) => Err(Failed),
    }
}

// Writes what is said of a failed call.
fn put_call<W: Sink>(sink: &mut W, said: &str, call: CallName, behind: &str) -> Result<(), Failed>
    ensures taken { W.Tells → TakesAs result (call_failed_text said.now call behind.now)
        (W.taken sink.old) (W.taken sink.new) }
    ensures count { Counts result (W.faults sink.old) (W.faults sink.new) }
{
    match sink.put(said.as_bytes()) {
        Ok(()) => put_both(sink, call_text(call).as_bytes(), behind.as_bytes()),
        Err(Failed) => Err(Failed),
    }
}

// Writes what is said of a number.
fn put_number<W: Sink>(sink: &mut W, said: &str, number: u64, behind: &str) -> Result<(), Failed>
    ensures taken { W.Tells → TakesAs result (number_text said.now number behind.now)
        (W.taken sink.old) (W.taken sink.new) }
    ensures count { Counts result (W.faults sink.old) (W.faults sink.new) }
{
    let mut digits = Buffer::new();
    match sink.put(said.as_bytes()) {
        Ok(()) => put_both(sink, digits.format(number).as_bytes(), behind.as_bytes()),
        Err(Failed) => Err(Failed),
    }
}

// Writes one piece, and then another.
fn put_both<W: Sink>(sink: &mut W, first: &[u8], second: &[u8]) -> Result<(), Failed>
    ensures taken { W.Tells → TakesAs result (first.now ++ second.now)
        (W.taken sink.old) (W.taken sink.new) }
    ensures count { Counts result (W.faults sink.old) (W.faults sink.new) }
{
    match sink.put(first) {
        Ok(()) => sink.put(second),
        Err(Failed) => Err(Failed),
    }
}
