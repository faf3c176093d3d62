// Why a script can't be read, and why a command of it can't be carried out.
use dired_text::Memory;
use emacs_regexp::RegexpFault;
use find_words::FindFault;
use rename_regexp::ToFault;
use std::alloc::AllocFailed;

/// Why a command of a script is refused.
#[derive(Clone, Copy, Debug, PartialEq, Eq)]
pub enum ScriptCause {
    /// The line is no command.
    UnknownCommand,
    /// Fewer lines follow than the command has arguments. The line is the one behind the last.
    MissingArgument,
    /// An argument isn't of the form that the command takes.
    BadArgument,
    /// The file isn't shown, or there is no current file that is.
    NoLine,
    /// No file is chosen.
    NoFiles,
    /// The argument is no regexp.
    BadRegexp(RegexpFault),
    /// The argument is no replacement.
    BadTo(ToFault),
    /// The argument is no predicate on files.
    BadFind(FindFault),
    /// A shell command has both a `*` for all names and a `?` for each.
    BothMarks,
    /// A shell command is empty, and none is guessed.
    EmptyCommand,
    /// No directory stands there.
    NoSuchDir,
    /// What stands there is no directory.
    NotDirectory,
    /// The section is already in the buffer, or can't be there.
    AlreadyThere,
    /// The buffer has no such section.
    NotThere,
    /// There is no command to be undone.
    NothingToUndo,
    /// A name that a replacement gives is no path.
    BadName,
    /// The line isn't UTF-8.
    NotUtf8,
}

/// Why bytes are no script.
#[derive(Clone, Copy, Debug, PartialEq, Eq)]
pub enum ScriptFault {
    /// It has so many lines, more than [`MAX_LINES`](crate::MAX_LINES).
    TooManyLines(u64),
    /// This line, counted from 1, is the first that isn't UTF-8.
    NotUtf8 { line: u32 },
    /// An allocation was refused.
    Memory,
}

impl From<Memory> for ScriptFault {
    ghost use Rattle.std.specs.Prelude.{◌≡◌};
    ghost use Rattle.script_words.specs.declared.fault.ScriptFault.TheVariants.{Memory as memory};

    ghost from_gives = { λ _ fault. fault ≡ memory };

    fn from(_error: Memory) -> ScriptFault {
        ScriptFault::Memory
    }
}

impl<T: Drop> From<AllocFailed<T>> for ScriptFault {
    ghost use Rattle.std.specs.Prelude.{◌≡◌};
    ghost use Rattle.script_words.specs.declared.fault.ScriptFault.TheVariants.{Memory as memory};

    ghost from_gives = { λ _ fault. fault ≡ memory };

    fn from(_error: AllocFailed<T>) -> ScriptFault {
        ScriptFault::Memory
    }
}

/// Why no command is read at a line.
#[derive(Clone, Copy, Debug, PartialEq, Eq)]
pub enum CommandFault {
    /// This line of the script, counted from 1, shows the cause.
    Bad { line: u32, cause: ScriptCause },
    /// An allocation was refused.
    Memory,
}

impl From<Memory> for CommandFault {
    ghost use Rattle.std.specs.Prelude.{◌≡◌};
    ghost use Rattle.script_words.specs.declared.fault.CommandFault.TheVariants.{Memory as memory};

    ghost from_gives = { λ _ fault. fault ≡ memory };

    fn from(_error: Memory) -> CommandFault {
        CommandFault::Memory
    }
}
