// What commands print.
ghost use Rattle.std.specs.Prelude.{◌≡◌, IfErr, IfOk, length};
ghost use Rattle.std.specs.String.{string_bytes};
ghost use Rattle.dired_session.specs.Desks.{starred_on};
ghost use Rattle.dired_session.specs.Ends.{IsPrintEnd, IsWritten, ended_by, of_printed, output_behind};
ghost use Rattle.dired_session.specs.Steps.{buffer_text, count_text as count_text_of};

use crate::Session;
use dired_text::{Failed, Memory, Sink};
use run_status::Status;
use section_buffer::PrintEnd;
use shown_lines::{count_marked, omitted_paths};
use std::alloc::Global;

// The line that says how many files are marked.
fn count_text(alloc: Global, count: u64) -> Result<String, Memory>
    ensures { IfOk result (λ text. string_bytes text ≡ count_text_of count) }
{
    Ok(format!(in alloc; "{count} marked\n")?)
}

impl Session {
    // `* N`: prints how many shown lines are marked `*`.
    pub(crate) fn count<W: Sink>(&self, alloc: Global, sink: &mut W) -> Result<(), Status>
        ensures taken { W.Tells → IsWritten (ended_by result)
            (of_printed result (count_text_of (length (starred_on self.now))))
            (W.taken sink.old) (W.taken sink.new) }
        ensures faults { W.faults sink.new ≡
            output_behind (ended_by result) (W.faults sink.old) }
        ensures end { IfErr result IsPrintEnd }
    {
        let Ok(marked) = count_marked(
            alloc,
            self.views.buffer(),
            self.views.marks(),
            self.omitting(),
        ) else {
            return Err(Status::Memory);
        };
        let Ok(text) = count_text(alloc, marked) else {
            return Err(Status::Memory);
        };
        match sink.put(text.as_bytes()) {
            Ok(()) => Ok(()),
            Err(Failed) => Err(Status::WriteFault { held: 0 }),
        }
    }

    // `p`: prints the buffer.
    pub(crate) fn print<W: Sink>(&self, alloc: Global, sink: &mut W) -> Result<(), Status>
        ensures taken { W.Tells → IsWritten (ended_by result)
            (of_printed result (buffer_text self.now))
            (W.taken sink.old) (W.taken sink.new) }
        ensures faults { W.faults sink.new ≡
            output_behind (ended_by result) (W.faults sink.old) }
        ensures end { IfErr result IsPrintEnd }
    {
        let Ok(omitted) = omitted_paths(
            alloc,
            self.views.buffer(),
            self.views.marks(),
            self.omitting(),
        ) else {
            return Err(Status::Memory);
        };
        match self
            .views
            .buffer()
            .print(self.views.marks(), &omitted, sink)
        {
            Ok(()) => Ok(()),
            Err(PrintEnd::Failed) => Err(Status::WriteFault { held: 0 }),
            Err(PrintEnd::Memory) => Err(Status::Memory),
        }
    }
}
