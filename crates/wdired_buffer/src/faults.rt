// Why a buffer isn't taken.
ghost use Rattle.std.specs.Prelude.{◌≡◌};

use dired_text::Memory;
use listing_text::Field;
use std::alloc::AllocFailed;

/// What is wrong with the first bad line of a buffer.
#[derive(Clone, Copy, Debug, PartialEq, Eq)]
pub enum BufferCause {
    /// The first line isn't `dired 1`.
    FirstLine,
    /// No header stands where one is due, or one whose path isn't taken; or more than its end follows a hidden section.
    Header,
    /// No total of 1 to 18 digits stands behind a header.
    Total,
    /// This field of a file's line, the first from the left, is bad.
    Line(Field),
}

/// Why a text is no buffer. Lines count from 1.
#[derive(Clone, Copy, Debug, PartialEq, Eq)]
pub enum BufferFault {
    /// The first bad line, or the one behind the last where lines are missing.
    Bad { line: u32, cause: BufferCause },
    /// There are so many lines, and more than 400,000.
    TooManyLines(u64),
    /// An allocation was refused.
    Memory,
}

/// Why an edited text asks for nothing. Lines count from 1.
#[derive(Clone, Copy, Debug, PartialEq, Eq)]
pub enum EditsFault {
    /// The first line that can't be taken, and why.
    Faulty { line: u32, cause: LineCause },
    /// An allocation was refused.
    Memory,
}

/// What is wrong with an edited line. Of several causes the first of these is given.
#[derive(Clone, Copy, Debug, PartialEq, Eq)]
pub enum LineCause {
    /// A line is missing, or one too many.
    LineCount,
    /// It differs where it may not be edited.
    Fixed,
    /// Its name isn't empty and is no escaped UTF-8, or names no path.
    BadName,
    /// Its mode letters show no mode, or another one for a link.
    BadMode,
    /// A link has no ` -> `, or its target is no escaped UTF-8 or hasn't 1 to 4,095 bytes.
    BadTarget,
    /// An earlier line shows the same path.
    Twice,
}

impl From<Memory> for BufferFault {
    ghost use Rattle.wdired_buffer.specs.declared.faults.BufferFault.TheVariants as fault;

    ghost from_gives = { λ _ e. e ≡ fault.Memory };

    fn from(_error: Memory) -> BufferFault {
        BufferFault::Memory
    }
}

impl<T: Drop> From<AllocFailed<T>> for BufferFault {
    ghost use Rattle.wdired_buffer.specs.declared.faults.BufferFault.TheVariants as fault;

    ghost from_gives = { λ _ e. e ≡ fault.Memory };

    fn from(_error: AllocFailed<T>) -> BufferFault {
        BufferFault::Memory
    }
}

impl From<Memory> for EditsFault {
    ghost use Rattle.wdired_buffer.specs.declared.faults.EditsFault.TheVariants as fault;

    ghost from_gives = { λ _ e. e ≡ fault.Memory };

    fn from(_error: Memory) -> EditsFault {
        EditsFault::Memory
    }
}

impl<T: Drop> From<AllocFailed<T>> for EditsFault {
    ghost use Rattle.wdired_buffer.specs.declared.faults.EditsFault.TheVariants as fault;

    ghost from_gives = { λ _ e. e ≡ fault.Memory };

    fn from(_error: AllocFailed<T>) -> EditsFault {
        EditsFault::Memory
    }
}
