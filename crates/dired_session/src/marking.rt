// The current file, marks on it, of all files, and of those that pass a test.
ghost use Rattle.std.specs.Prelude.{◌≡◌, ◌≤◌, IfErr, IfOk, IfSome, Ok};
ghost use Rattle.std.specs.Option.{option_map};
ghost use Rattle.mark_table.specs.PathMarks.{IsMark};
ghost use Rattle.run_status.specs.declared.status.Status.TheVariants.{BadScript};
ghost use Rattle.script_words.specs.declared.fault.ScriptCause.TheVariants as cause;
ghost use Rattle.script_words.specs.Marks.{AreMarks};
ghost use Rattle.shown_lines.specs.Tests.{paths};
ghost use Rattle.dired_session.specs.Commands.{go_to as gone_to, is_shown as is_shown_on, mark_where as marked_where, put as put_at, remark as remarked_by, that_pass};
ghost use Rattle.dired_session.specs.Desks.{omitting_by, shown_on, starred_on};
ghost use Rattle.dired_session.specs.Ends.{EndsAs, IsDeskEnd};

use crate::Session;
use dired_text::{Memory, Path};
use omit_rules::Rules;
use run_status::Status;
use script_words::{Remark, ScriptCause, Test};
use shown_lines::{Entry, is_shown, passing, shown_lines};
use std::alloc::Global;

// The mark that `m` gives.
const STAR: u8 = b'*';

fn no_line(line: u32) -> Status
    ensures { result ≡ BadScript line cause.NoLine }
{
    Status::BadScript {
        line,
        cause: ScriptCause::NoLine,
    }
}

// The paths of these lines.
fn paths_of(alloc: Global, entries: Vec<Entry>) -> Result<Vec<Path>, Memory>
    ensures { IfOk result (λ found. found.items ≡ paths entries.items) }
{
    let mut found = Vec::new(alloc);
    for entry in entries {
        found.push(entry.path)?;
    }
    Ok(found)
}

impl Session {
    // The rules by which lines are omitted, where they are.
    pub(crate) fn omitting(&self) -> Option<&Rules>
        ensures { option_map (λ rules. rules.now) result ≡ omitting_by self.now }
    {
        if self.views.omitting() {
            Some(&self.rules)
        } else {
            None
        }
    }

    // The shown lines.
    pub(crate) fn shown(&self, alloc: Global) -> Result<Vec<Entry>, Memory>
        ensures { IfOk result (λ entries. entries.items ≡ shown_on self.now) }
    {
        shown_lines(
            alloc,
            self.views.buffer(),
            self.views.marks(),
            self.omitting(),
        )
    }

    // Whether the line of this path is shown.
    fn shows(&self, alloc: Global, path: &Path) -> Result<bool, Memory>
        ensures { IfOk result (λ shown. shown ≡ is_shown_on path.now self.now) }
    {
        is_shown(
            alloc,
            self.views.buffer(),
            self.views.marks(),
            self.omitting(),
            path,
        )
    }

    // The paths of the shown lines that pass a test.
    fn passing(&self, alloc: Global, test: &Test) -> Result<Vec<Path>, Memory>
        ensures { IfOk result (λ found. found.items ≡ that_pass test.now self.now) }
    {
        let shown = self.shown(alloc)?;
        passing(
            alloc,
            &shown,
            test,
            None,
            self.kept,
            self.views.buffer(),
            self.current.as_ref(),
        )
    }

    // The paths of the shown lines that are marked `*`.
    pub(crate) fn starred(&self, alloc: Global) -> Result<Vec<Path>, Memory>
        ensures { IfOk result (λ found. found.items ≡ paths (starred_on self.now)) }
    {
        let mut found = Vec::new(alloc);
        for entry in self.shown(alloc)? {
            if self.views.marks().get(&entry.path) == Some(STAR) {
                found.push(entry.path)?;
            }
        }
        Ok(found)
    }

    // `at`: makes this file the current one.
    pub(crate) fn go_to(&mut self, alloc: Global, at: u32, path: Path) -> Result<(), Status>
        requires { at ≤ 100_000 }
        ensures done { EndsAs (gone_to at path self.old) self.new result }
        ensures ends { IfErr result IsDeskEnd }
    {
        if !self.shows(alloc, &path)? {
            return Err(no_line(at + 1));
        }
        self.current = Some(path);
        Ok(())
    }

    // `m`, `d` and `u`: gives the current file this mark, or none.
    pub(crate) fn put(&mut self, alloc: Global, at: u32, mark: Option<u8>) -> Result<(), Status>
        requires { IfSome mark IsMark }
        ensures done { EndsAs (put_at at mark self.old) self.new result }
        ensures ends { IfErr result IsDeskEnd }
    {
        let Some(current) = &self.current else {
            return Err(no_line(at));
        };
        let path = current.copy()?;
        if !self.shows(alloc, &path)? {
            return Err(no_line(at));
        }
        self.views.put(&[path], mark)?;
        Ok(())
    }

    // `t`, `U`, `* ?` and `* c`: changes all marks, or for `t` those of the shown files.
    pub(crate) fn remark(&mut self, alloc: Global, change: Remark) -> Result<(), Status>
        requires { AreMarks change }
        ensures done { EndsAs (Ok (remarked_by change self.old)) self.new result }
        ensures ends { IfErr result IsDeskEnd }
    {
        match change {
            Remark::Toggle => {
                let shown = paths_of(alloc, self.shown(alloc)?)?;
                self.views.toggle(&shown)?;
            }
            Remark::Clear => self.views.clear_all()?,
            Remark::ClearMark(mark) => self.views.clear_mark(mark)?,
            Remark::Replace { old, new } => self.views.replace(old, new)?,
        }
        Ok(())
    }

    // `* /` and those like it: gives this mark to the shown files that pass a test. A test by a pattern isn't one yet.
    pub(crate) fn mark_where(
        &mut self,
        alloc: Global,
        at: u32,
        mark: u8,
        test: &Test,
    ) -> Result<(), Status>
        requires { IsMark mark }
        ensures done { EndsAs (marked_where at mark test.now self.old) self.new result }
        ensures ends { IfErr result IsDeskEnd }
    {
        if let Test::NameMatches = test {
            return Err(Status::BadScript {
                line: at,
                cause: ScriptCause::UnknownCommand,
            });
        }
        let found = self.passing(alloc, test)?;
        self.views.put(&found, Some(mark))?;
        Ok(())
    }
}
