// One step of a script.
ghost use Rattle.std.specs.Prelude.{◌≡◌, ◌≤◌, ◌+◌, IfErr, IfOk, List, ℕ, length};
ghost use Rattle.tree_core.specs.Looks.{OnlyLooked};
ghost use Rattle.script_words.specs.Marks.{HasMarks};
ghost use Rattle.dired_session.specs.Desks.{seen};
ghost use Rattle.dired_session.specs.Steps.{change as change_by, does};
ghost use Rattle.dired_session.specs.Ends.{DoesBy, EndsAs, IsDeskEnd, IsStepEnd, IsWritten, StepsBy, counts_behind, ended_by, failed_look, fault_status, tally};

use crate::Session;
use dired_text::{Patterns, Shelf, Shell, Sink};
use run_status::Status;
use script_words::{Command, CommandFault, Script, ScriptCause, read_command};
use std::alloc::Global;
use tree_core::Tree;

// The status of a line at which no command is read.
fn status_of_fault(fault: CommandFault) -> Status
    ensures { result ≡ fault_status fault }
{
    match fault {
        CommandFault::Bad { line, cause } => Status::BadScript { line, cause },
        CommandFault::Memory => Status::Memory,
    }
}

impl Session {
    /// Carries out the command at this line of a script, counted from 1, and answers the number of the line behind its last
    /// argument. An empty line does nothing.
    ///
    /// # Errors
    /// `BadScript` with the line and the cause; `TreeFault` with the look that failed; `WriteFault` where the output failed; want of
    /// memory.
    pub fn step<T: Tree, H: Shelf, P: Patterns, S: Shell, W: Sink>(
        &mut self,
        alloc: Global,
        tree: &mut T,
        shelf: &mut H,
        patterns: &mut P,
        shell: &mut S,
        sink: &mut W,
        _now: i64,
        script: &Script,
        at: u32,
    ) -> Result<u32, Status>
        requires first { 1 ≤ at }
        requires last { at ≤ length script.now }
        ensures fold { (text : List ℕ) × ((T.Tells → StepsBy script.now at
            (seen (T.history tree.old) (T.fields tree.old))
            self.old self.new text result)
            × (W.Tells → IsWritten (ended_by result) text (W.taken sink.old) (W.taken sink.new))) }
        ensures looked { T.Tells → OnlyLooked (failed_look (ended_by result))
            (T.history tree.old) (T.history tree.new) (T.fields tree.old) (T.fields tree.new)
            (T.before_failed tree.old) (T.before_failed tree.new) }
        ensures unchanged { T.changes tree.new ≡ T.changes tree.old }
        ensures causes { tally (T.faults tree.new) (W.faults sink.new) ≡ counts_behind
            (ended_by result) (tally (T.faults tree.old) (W.faults sink.old)) }
        ensures ends { IfErr result IsStepEnd }
        ensures next_line { IfOk result (λ next.
            (at + 1 ≤ next) × (next ≤ length script.now + 1)) }
        ensures unused { (shelf.new ≡ shelf.old) × (patterns.new ≡ patterns.old)
            × (shell.new ≡ shell.old) }
    {
        let _lines = script.lines();
        if script.line(at).is_empty() {
            return Ok(at + 1);
        }
        let (asked, next) = match read_command(alloc, script, at) {
            Ok(read) => read,
            Err(fault) => return Err(status_of_fault(fault)),
        };
        match self.carry_out(alloc, tree, sink, at, asked.command) {
            Ok(()) => Ok(next),
            Err(refused) => Err(refused),
        }
    }

    // Carries out the command at this line.
    fn carry_out<T: Tree, W: Sink>(
        &mut self,
        alloc: Global,
        tree: &mut T,
        sink: &mut W,
        at: u32,
        command: Command,
    ) -> Result<(), Status>
        requires marks { HasMarks command }
        requires few { at ≤ 100_000 }
        ensures done { (text : List ℕ) × ((T.Tells → DoesBy (does at command
            (seen (T.history tree.old) (T.fields tree.old))
            self.old) self.new text result)
            × (W.Tells → IsWritten (ended_by result) text (W.taken sink.old) (W.taken sink.new))) }
        ensures looked { T.Tells → OnlyLooked (failed_look (ended_by result))
            (T.history tree.old) (T.history tree.new) (T.fields tree.old) (T.fields tree.new)
            (T.before_failed tree.old) (T.before_failed tree.new) }
        ensures unchanged { T.changes tree.new ≡ T.changes tree.old }
        ensures causes { tally (T.faults tree.new) (W.faults sink.new) ≡ counts_behind
            (ended_by result) (tally (T.faults tree.old) (W.faults sink.old)) }
        ensures ends { IfErr result IsStepEnd }
    {
        match command {
            Command::Count => self.count(alloc, sink),
            Command::Print => self.print(alloc, sink),
            other => self.change(alloc, at, other),
        }
    }

    // Carries out a command that looks at no tree and prints nothing.
    fn change(&mut self, alloc: Global, at: u32, command: Command) -> Result<(), Status>
        requires marks { HasMarks command }
        requires few { at ≤ 100_000 }
        ensures done { EndsAs (change_by at command self.old) self.new result }
        ensures ends { IfErr result IsDeskEnd }
    {
        match command {
            Command::At(path) => self.go_to(alloc, at, path),
            Command::Put(mark) => self.put(alloc, at, mark),
            Command::Change(change) => self.remark(alloc, change),
            Command::MarkWhere { mark, test } => self.mark_where(alloc, at, mark, &test),
            Command::TakeOut(dir) => self.take_out(at, &dir),
            Command::Turn(dir) => self.turn(at, &dir),
            Command::Kill => self.kill(alloc),
            Command::Omit => self.omit(),
            Command::Undo => self.undo(at),
            // Commands that aren't there yet.
            _ => Err(Status::BadScript {
                line: at,
                cause: ScriptCause::UnknownCommand,
            }),
        }
    }
}
