// Sections: taken out, hidden and shown; and lines taken out.
ghost use Rattle.std.specs.Prelude.{◌≡◌, ◌≤◌, IfErr, Ok};
ghost use Rattle.dired_session.specs.Commands.{kill as killed, take_out as taken_out, turn as turned};
ghost use Rattle.dired_session.specs.Ends.{EndsAs, IsDeskEnd, status_of};

use crate::Session;
use dired_text::Path;
use run_status::Status;
use script_words::ScriptCause;
use section_buffer::BufferEnd;
use std::alloc::Global;

// The status of a call that a buffer refuses, for an argument on this line.
fn refused_at(line: u32, end: BufferEnd) -> Status
    ensures { result ≡ status_of line end }
{
    let cause = match end {
        BufferEnd::NoSuchDir => ScriptCause::NoSuchDir,
        BufferEnd::NotDirectory => ScriptCause::NotDirectory,
        BufferEnd::AlreadyThere => ScriptCause::AlreadyThere,
        BufferEnd::NotThere => ScriptCause::NotThere,
        BufferEnd::TreeFault(first) => return Status::TreeFault { first },
        BufferEnd::Memory => return Status::Memory,
    };
    Status::BadScript { line, cause }
}

impl Session {
    // `kill-section`: takes the section of this directory out.
    pub(crate) fn take_out(&mut self, at: u32, dir: &Path) -> Result<(), Status>
        requires { at ≤ 100_000 }
        ensures done { EndsAs (taken_out at dir.now self.old) self.new result }
        ensures ends { IfErr result IsDeskEnd }
    {
        match self.views.take_out(dir) {
            Ok(()) => Ok(()),
            Err(end) => Err(refused_at(at + 1, end)),
        }
    }

    // `$`: hides the section of this directory, or shows it where it is hidden.
    pub(crate) fn turn(&mut self, at: u32, dir: &Path) -> Result<(), Status>
        requires { at ≤ 100_000 }
        ensures done { EndsAs (turned at dir.now self.old) self.new result }
        ensures ends { IfErr result IsDeskEnd }
    {
        match self.views.turn(dir) {
            Ok(()) => Ok(()),
            Err(end) => Err(refused_at(at + 1, end)),
        }
    }

    // `k`: takes the lines out that are shown and marked `*`.
    pub(crate) fn kill(&mut self, alloc: Global) -> Result<(), Status>
        ensures done { EndsAs (Ok (killed self.old)) self.new result }
        ensures ends { IfErr result IsDeskEnd }
    {
        let starred = self.starred(alloc)?;
        self.views.kill(&starred)?;
        Ok(())
    }
}
