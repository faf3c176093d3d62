// What a run answers.
ghost use Rattle.std.specs.Prelude.{◌≡◌, ◌++◌, IfOk, OnOk, codes, decimal, false};
ghost use Rattle.std.specs.String.{string_bytes};
ghost use Rattle.dired_text.specs.Escape.{escaped};
ghost use Rattle.run_status.specs.Statuses.{call_failed_text as call_failed_text_of, number_text as number_text_of, text_of as text_of_status, call_text as call_text_of, cause_text as cause_text_of, line_text as line_text_of, path_text as path_text_of, field_text as field_text_of, buffer_text, bad_line_text as bad_line_text_of};
ghost use Rattle.run_status.specs.Faults.{cause_of_line, status_of_fault};
ghost use Rattle.run_status.specs.declared.status.Status.TheVariants.{Faulty as is_faulty, Unfinished};

use crate::scripts::{script_line_text, script_text};
use dired_text::{Memory, Path, Text, escape};
use edit_words::CheckFault;
use listing_text::Field;
use script_words::ScriptCause;
use std::alloc::Global;
use tree_core::CallName;
use wdired_buffer::BufferCause;

/// A quantity that has a limit.
#[derive(Clone, Copy, Debug, PartialEq, Eq)]
pub enum Counted {
    /// The bytes of one buffer, at most 67,108,864.
    BufferBytes,
    /// The lines of BEFORE, at most 400,000.
    BufferLines,
    /// The edits of one commit, at most 262,144.
    Edits,
    /// The bytes of the paths of one commit, at most 67,108,864.
    PathBytes,
    /// The bytes of a script, at most 16,777,216.
    ScriptBytes,
    /// The lines of a script, at most 100,000.
    ScriptLines,
}

/// Why a line of AFTER can't be taken. A cause that carries the number of a line clashes with that line; one that carries a
/// path tells what stands there.
#[derive(Debug, PartialEq, Eq, Drop)]
pub enum LineCause {
    /// A line is missing, or one too many.
    LineCount,
    /// It differs where it may not be edited.
    Fixed,
    /// Its name isn't empty and is no escaped UTF-8, or names no path.
    BadName,
    /// Its mode letters show no mode, or another one for a link.
    BadMode,
    /// A link has no ` -> `, or its target is no escaped UTF-8 or hasn't 1 to 4,095 bytes.
    BadTarget,
    /// An earlier line shows the same path.
    Twice,
    /// The source or the written path is in the staging directory.
    Reserved,
    /// That line has the same written path.
    TwoToOne(u32),
    /// That line names another mode for the same file.
    ModeClash(u32),
    /// Something other than a directory stands above the written path.
    ParentNotDirectory(Path),
    /// That line, maybe this one, moves a directory above the written path.
    MovedParent(u32),
    /// A directory that has to be made is the written path of that line.
    ParentTaken(u32),
    /// The new place of the source has more than 4,095 bytes.
    PathTooLong,
    /// A directory would be replaced.
    TargetIsDirectory(Path),
    /// A directory that is to be removed has entries.
    NotEmpty(Path),
}

/// What a run answers. Each has a number, with which the program exits, and all but `Done` and `WriteFault` a text, the
/// last line that the run writes.
#[derive(Debug, PartialEq, Eq, Drop)]
pub enum Status {
    /// All was done.
    Done,
    /// The words are no command.
    Usage,
    /// An allocation was refused. The tree is as before.
    Memory,
    /// The input of this name could not be read.
    ReadFault {
        name: Text,
    },
    /// This call of the tree failed.
    TreeFault {
        first: CallName,
    },
    /// The output could not be written. `held` is the number of the status whose text was being written, 0 for the
    /// output of a command that was done.
    WriteFault {
        held: u8,
    },
    /// There is no input of this name, or no directory at this path of the tree.
    Missing {
        name: Text,
    },
    /// This line of the input of this name, counted from 1, is the first that is no line of a listing, for this cause.
    BadBuffer {
        name: Text,
        line: u32,
        cause: BufferCause,
    },
    /// This line of AFTER, counted from 1, can't be taken, for this cause.
    Faulty {
        line: u32,
        cause: LineCause,
    },
    /// The new path of this line, counted from 1, is taken, and to replace what stands there is not confirmed.
    Unconfirmed {
        line: u32,
        path: Path,
    },
    /// The entry of this line, counted from 1, is not as the line shows it.
    Stale {
        line: u32,
    },
    /// A commit is unfinished.
    Pending,
    /// This call of a commit failed, and every change was taken back.
    RolledBack {
        first: CallName,
    },
    /// This call of a commit failed, and then the second one as its changes were taken back. A recovery leads to the old or to
    /// the edited tree.
    Unfinished {
        first: CallName,
        second: CallName,
    },
    /// The edits were made, but this call failed as the commit was ended. A recovery clears away what is left.
    Unclean {
        first: CallName,
    },
    /// The journal of an unfinished commit is unreadable from this byte on, counted from 0.
    BadJournal {
        offset: u64,
    },
    /// What stands under this name, in the staging directory or as that itself, is of no commit.
    Foreign {
        name: Text,
    },
    /// The tree is neither before nor after the step of this number of an unfinished commit, counted from 0.
    Strange {
        step: u64,
    },
    /// This line of the script, counted from 1, shows that its command can't be carried out, for this cause.
    BadScript {
        line: u32,
        cause: ScriptCause,
    },
    /// A quantity is above its limit. `number` is the limit plus 1 for the bytes of a buffer or a script, and else the quantity.
    TooLarge {
        what: Counted,
        number: u64,
    },
}

impl From<Memory> for Status {
    ghost use Rattle.std.specs.Prelude.{◌≡◌};
    ghost use Rattle.run_status.specs.declared.status.Status.TheVariants.{Memory as memory};

    ghost from_gives = { λ _ status. status ≡ memory };

    fn from(_error: Memory) -> Status {
        Status::Memory
    }
}

impl Status {
    ghost use Rattle.run_status.specs.Statuses.{number_of, text_of, has_fixed_text};

    /// The number with which the program exits.
    pub fn number(&self) -> u8
        ensures { result ≡ number_of self.now }
    {
        match self {
            Status::Done => 0,
            Status::Usage => 1,
            Status::Memory => 2,
            Status::ReadFault { .. } => 3,
            Status::TreeFault { .. } => 4,
            Status::WriteFault { .. } => 5,
            Status::Missing { .. } => 6,
            Status::BadBuffer { .. } => 7,
            Status::Faulty { .. } => 8,
            Status::Unconfirmed { .. } => 9,
            Status::Stale { .. } => 10,
            Status::Pending => 11,
            Status::RolledBack { .. } => 12,
            Status::Unfinished { .. } => 13,
            Status::Unclean { .. } => 14,
            Status::BadJournal { .. } => 15,
            Status::Foreign { .. } => 16,
            Status::BadScript { .. } => 17,
            Status::TooLarge { .. } => 18,
            Status::Strange { .. } => 21,
        }
    }

    /// Whether the text is written without memory.
    pub fn has_fixed_text(&self) -> bool
        ensures { result ≡ has_fixed_text self.now }
    {
        !matches!(
            self,
            Status::ReadFault { .. }
                | Status::Missing { .. }
                | Status::BadBuffer { .. }
                | Status::Faulty { .. }
                | Status::Unconfirmed { .. }
                | Status::Stale { .. }
                | Status::Foreign { .. }
                | Status::BadScript { .. }
                | Status::TooLarge { .. }
        )
    }

    /// The text, which is empty for `Done` and `WriteFault`.
    pub fn text(&self, alloc: Global) -> Result<String, Memory>
        ensures { IfOk result (λ t. string_bytes t ≡ text_of self.now) }
    {
        match self {
            Status::Done | Status::WriteFault { .. } => Ok(String::new(alloc)),
            Status::Usage => Ok(String::from_str(alloc, USAGE)?),
            Status::Memory => Ok(String::from_str(alloc, OUT_OF_MEMORY)?),
            Status::ReadFault { name } => named_text(alloc, "cannot read ", name),
            Status::TreeFault { first } => call_failed_text(
                alloc,
                "dired: ",
                *first,
                NOTHING_DECIDED,
            ),
            Status::RolledBack { first } => call_failed_text(alloc, "dired: ", *first, TAKEN_BACK),
            Status::Unfinished { first, second } => unfinished_text(alloc, *first, *second),
            Status::Unclean { first } => call_failed_text(
                alloc,
                COMMITTED_BUT,
                *first,
                RUN_RECOVER,
            ),
            Status::Missing { name } => named_text(alloc, "no such input: ", name),
            Status::BadBuffer { name, line, cause } => bad_line_text(alloc, name, *line, *cause),
            Status::Faulty { line, cause } => {
                let cause = cause_text(alloc, cause)?;
                line_text(alloc, *line, cause.as_str())
            }
            Status::Unconfirmed { line, path } => victim_text(alloc, *line, path),
            Status::Pending => Ok(String::from_str(alloc, PENDING)?),
            Status::Stale { line } => line_text(alloc, *line, "the file is not as shown"),
            Status::BadJournal { offset } => number_text(alloc, UNREADABLE_AT, *offset, "\n"),
            Status::Foreign { name } => named_text(alloc, "not of this program: ", name),
            Status::Strange { step } => number_text(alloc, STEP, *step, NEITHER),
            Status::BadScript { line, cause } => {
                let cause = script_text(alloc, *cause)?;
                script_line_text(alloc, *line, cause.as_str())
            }
            Status::TooLarge { what, number } => {
                Ok(format!(in alloc; "dired: too large: {} {number}\n", what.name())?)
            }
        }
    }
}

// The fixed texts, which can be written without memory.

/// The text of `Usage`.
pub const USAGE: &str = "dired: usage: list, commit, run, recover or drill\n";

/// The text of `Memory`.
pub const OUT_OF_MEMORY: &str = "dired: out of memory\n";

/// The text of `Pending`.
pub const PENDING: &str = "dired: an unfinished commit stands; run recover\n";

/// What stands behind the call of a `TreeFault`.
pub const NOTHING_DECIDED: &str = " failed; nothing was decided\n";

/// What stands behind the call of a `RolledBack`.
pub const TAKEN_BACK: &str = " failed; every change was taken back\n";

/// What stands before the call of an `Unclean`.
pub const COMMITTED_BUT: &str = "dired: committed, but ";

/// What stands between the two calls of an `Unfinished`.
pub const THEN: &str = " failed, then ";

/// What stands behind the last call of an `Unfinished` or `Unclean`.
pub const RUN_RECOVER: &str = " failed; run recover\n";

/// What stands before the offset of a `BadJournal`.
pub const UNREADABLE_AT: &str = "dired: journal unreadable at byte ";

/// What stands before the number of a `Strange`.
pub const STEP: &str = "dired: step ";

/// What stands behind the number of a `Strange`.
pub const NEITHER: &str = ": the tree is neither before nor after it\n";

/// The name of a call as texts have it.
pub fn call_text(call: CallName) -> &'static str
    ensures { result.now ≡ call_text_of call }
{
    match call {
        CallName::Kind => "kind",
        CallName::Mode => "mode",
        CallName::IsEmpty => "is_empty",
        CallName::Meta => "meta",
        CallName::Names => "names",
        CallName::Read => "read",
        CallName::MakeDir => "make_dir",
        CallName::MakeLink => "make_link",
        CallName::MakeHard => "make_hard",
        CallName::WriteFile => "write_file",
        CallName::Rename => "rename",
        CallName::SetMode => "set_mode",
        CallName::Remove => "remove",
        CallName::RemoveDir => "remove_dir",
        CallName::Sync => "sync",
    }
}

// What is said of a failed call.
fn call_failed_text(
    alloc: Global,
    said: &str,
    call: CallName,
    behind: &str,
) -> Result<String, Memory>
    ensures { IfOk result (λ t. string_bytes t ≡ call_failed_text_of said.now call behind.now) }
{
    Ok(format!(in alloc; "{said}{}{behind}", call_text(call))?)
}

// What is said of a number.
fn number_text(alloc: Global, said: &str, number: u64, behind: &str) -> Result<String, Memory>
    ensures { IfOk result (λ t. string_bytes t ≡ number_text_of said.now number behind.now) }
{
    Ok(format!(in alloc; "{said}{number}{behind}")?)
}

// What is said of a failed call, and of another one on the way back.
fn unfinished_text(alloc: Global, first: CallName, second: CallName) -> Result<String, Memory>
    ensures { IfOk result (λ t. string_bytes t ≡ text_of_status (Unfinished first second)) }
{
    let mut text = call_failed_text(alloc, "dired: ", first, THEN)?;
    let rest = call_failed_text(alloc, "", second, RUN_RECOVER)?;
    text.push_str(rest.as_str())?;
    Ok(text)
}

// What is said of an input, behind which its name stands.
fn named_text(alloc: Global, said: &str, name: &Text) -> Result<String, Memory>
    ensures { IfOk result (λ t. string_bytes t ≡
        codes "dired: " ++ said.now ++ escaped false name.now ++ codes "\n") }
{
    let name = escape(alloc, name.as_str(), false)?;
    Ok(format!(in alloc; "dired: {said}{}\n", name.as_str())?)
}

// What is said of a line that would replace what stands at a path.
fn victim_text(alloc: Global, line: u32, path: &Path) -> Result<String, Memory>
    ensures { IfOk result (λ t. string_bytes t ≡
        line_text_of line (path_text_of path.now ++ codes " would be replaced")) }
{
    let victim = path_text(alloc, path)?;
    let said = format!(in alloc; "{} would be replaced", victim.as_str())?;
    line_text(alloc, line, said.as_str())
}

// What is said of a line.
fn line_text(alloc: Global, line: u32, said: &str) -> Result<String, Memory>
    ensures { IfOk result (λ t. string_bytes t ≡ line_text_of line said.now) }
{
    Ok(format!(in alloc; "dired: line {line}: {said}\n")?)
}

// What is said of a line of an input.
fn bad_line_text(
    alloc: Global,
    name: &Text,
    line: u32,
    cause: BufferCause,
) -> Result<String, Memory>
    ensures { IfOk result (λ t. string_bytes t ≡ bad_line_text_of name.now line cause) }
{
    let name = escape(alloc, name.as_str(), false)?;
    let mut text = String::from_str(alloc, "dired: ")?;
    text.push_str(name.as_str())?;
    push_line(&mut text, line)?;
    push_buffer_cause(&mut text, cause)?;
    text.push_str("\n")?;
    Ok(text)
}

// Pushes the number of a line behind the name of its input.
fn push_line(text: &mut String, line: u32) -> Result<(), Memory>
    ensures { OnOk result (string_bytes text.new ≡
        string_bytes text.old ++ codes ", line " ++ decimal line ++ codes ": ") }
{
    let alloc = *text.allocator();
    let piece = format!(in alloc; ", line {line}: ")?;
    text.push_str(piece.as_str())?;
    Ok(())
}

// Pushes the name of a cause, and of the field that it carries.
fn push_buffer_cause(text: &mut String, cause: BufferCause) -> Result<(), Memory>
    ensures { OnOk result (string_bytes text.new ≡ string_bytes text.old ++ buffer_text cause) }
{
    match cause {
        BufferCause::FirstLine => text.push_str("FirstLine")?,
        BufferCause::Header => text.push_str("Header")?,
        BufferCause::Total => text.push_str("Total")?,
        BufferCause::Line(field) => {
            text.push_str("Line ")?;
            text.push_str(field_text(field))?;
        }
    }
    Ok(())
}

// The name of a field.
fn field_text(field: Field) -> &'static str
    ensures { result.now ≡ field_text_of field }
{
    match field {
        Field::Mark => "Mark",
        Field::Kind => "Kind",
        Field::Mode => "Mode",
        Field::Links => "Links",
        Field::Owner => "Owner",
        Field::Group => "Group",
        Field::Size => "Size",
        Field::Date => "Date",
        Field::Name => "Name",
        Field::Target => "Target",
    }
}

// What is said of a cause: its name, and the number of the line or the path that it carries.
fn cause_text(alloc: Global, cause: &LineCause) -> Result<String, Memory>
    ensures { IfOk result (λ t. string_bytes t ≡ cause_text_of cause.now) }
{
    match cause {
        LineCause::LineCount => Ok(String::from_str(alloc, "LineCount")?),
        LineCause::Fixed => Ok(String::from_str(alloc, "Fixed")?),
        LineCause::BadName => Ok(String::from_str(alloc, "BadName")?),
        LineCause::BadMode => Ok(String::from_str(alloc, "BadMode")?),
        LineCause::BadTarget => Ok(String::from_str(alloc, "BadTarget")?),
        LineCause::Twice => Ok(String::from_str(alloc, "Twice")?),
        LineCause::Reserved => Ok(String::from_str(alloc, "Reserved")?),
        LineCause::TwoToOne(other) => Ok(format!(in alloc; "TwoToOne {other}")?),
        LineCause::ModeClash(other) => Ok(format!(in alloc; "ModeClash {other}")?),
        LineCause::ParentNotDirectory(path) => with_path(alloc, "ParentNotDirectory ", path),
        LineCause::MovedParent(other) => Ok(format!(in alloc; "MovedParent {other}")?),
        LineCause::ParentTaken(other) => {
            Ok(format!(in alloc; "a directory to be made is taken by line {other}")?)
        }
        LineCause::PathTooLong => Ok(String::from_str(alloc, "PathTooLong")?),
        LineCause::TargetIsDirectory(path) => with_path(alloc, "TargetIsDirectory ", path),
        LineCause::NotEmpty(path) => with_path(alloc, "NotEmpty ", path),
    }
}

// A word, and a path behind it.
fn with_path(alloc: Global, word: &str, path: &Path) -> Result<String, Memory>
    ensures { IfOk result (λ t. string_bytes t ≡ word.now ++ path_text_of path.now) }
{
    let mut text = String::from_str(alloc, word)?;
    text.push_str(path_text(alloc, path)?.as_str())?;
    Ok(text)
}

/// A path as texts have it, its names escaped.
pub fn path_text(alloc: Global, path: &Path) -> Result<Text, Memory>
    ensures { IfOk result (λ t. t ≡ path_text_of path.now) }
{
    let path = path.text()?;
    escape(alloc, path.as_str(), false)
}

impl From<wdired_buffer::LineCause> for LineCause {
    ghost from_gives = { λ line cause. cause ≡ cause_of_line line };

    fn from(cause: wdired_buffer::LineCause) -> LineCause {
        match cause {
            wdired_buffer::LineCause::LineCount => LineCause::LineCount,
            wdired_buffer::LineCause::Fixed => LineCause::Fixed,
            wdired_buffer::LineCause::BadName => LineCause::BadName,
            wdired_buffer::LineCause::BadMode => LineCause::BadMode,
            wdired_buffer::LineCause::BadTarget => LineCause::BadTarget,
            wdired_buffer::LineCause::Twice => LineCause::Twice,
        }
    }
}

impl From<CheckFault> for Status {
    ghost from_gives = { λ fault status. status ≡ status_of_fault fault };

    fn from(fault: CheckFault) -> Status {
        match fault {
            CheckFault::Pending => Status::Pending,
            CheckFault::Stale(line) => Status::Stale { line },
            CheckFault::Reserved(line) => faulty(line, LineCause::Reserved),
            CheckFault::TwoToOne(line, other) => faulty(line, LineCause::TwoToOne(other)),
            CheckFault::ModeClash(line, other) => faulty(line, LineCause::ModeClash(other)),
            CheckFault::ParentNotDirectory(line, path) => {
                faulty(line, LineCause::ParentNotDirectory(path))
            }
            CheckFault::MovedParent(line, other) => faulty(line, LineCause::MovedParent(other)),
            CheckFault::ParentTaken(line, other) => faulty(line, LineCause::ParentTaken(other)),
            CheckFault::PathTooLong(line) => faulty(line, LineCause::PathTooLong),
            CheckFault::TargetIsDirectory(line, path) => {
                faulty(line, LineCause::TargetIsDirectory(path))
            }
            CheckFault::NotEmpty(line, path) => faulty(line, LineCause::NotEmpty(path)),
            CheckFault::Unconfirmed(line, path) => Status::Unconfirmed { line, path },
            CheckFault::PathBytes(number) => Status::TooLarge {
                what: Counted::PathBytes,
                number,
            },
            CheckFault::TreeFault(first) => Status::TreeFault { first },
            CheckFault::Memory => Status::Memory,
        }
    }
}

fn faulty(line: u32, cause: LineCause) -> Status
    ensures { result ≡ is_faulty line cause }
{
    Status::Faulty { line, cause }
}

impl Counted {
    ghost use Rattle.run_status.specs.Statuses.{counted_text};

    /// The name of the quantity.
    pub fn name(self) -> &'static str
        ensures { result.now ≡ counted_text self }
    {
        match self {
            Counted::BufferBytes => "BufferBytes",
            Counted::BufferLines => "BufferLines",
            Counted::Edits => "Edits",
            Counted::PathBytes => "PathBytes",
            Counted::ScriptBytes => "ScriptBytes",
            Counted::ScriptLines => "ScriptLines",
        }
    }
}
