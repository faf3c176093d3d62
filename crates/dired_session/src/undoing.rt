// What isn't seen any more, and what is seen again.
ghost use Rattle.std.specs.Prelude.{IfErr, Ok};
ghost use Rattle.dired_session.specs.Commands.{omit as omitted, undo as undone_at};
ghost use Rattle.dired_session.specs.Ends.{EndsAs, IsDeskEnd};

use crate::Session;
use run_status::Status;
use script_words::ScriptCause;

impl Session {
    // `omit`: turns omitting on or off.
    pub(crate) fn omit(&mut self) -> Result<(), Status>
        ensures done { EndsAs (Ok (omitted self.old)) self.new result }
        ensures ends { IfErr result IsDeskEnd }
    {
        self.views.omit()?;
        Ok(())
    }

    // `undo`: undoes the last command that may be undone.
    pub(crate) fn undo(&mut self, at: u32) -> Result<(), Status>
        ensures done { EndsAs (undone_at at self.old) self.new result }
        ensures ends { IfErr result IsDeskEnd }
    {
        if self.views.undo()? {
            return Ok(());
        }
        Err(Status::BadScript {
            line: at,
            cause: ScriptCause::NothingToUndo,
        })
    }
}
