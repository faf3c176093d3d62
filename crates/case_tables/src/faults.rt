// Why a table isn't run to its end.
use dired_text::{Failed, Memory};
use std::alloc::{AllocError, AllocFailed};
use std::io;

/// Why a row can't be taken.
#[derive(Clone, Copy, Debug, PartialEq, Eq)]
pub enum RowFault {
    /// It isn't well formed.
    Bad,
    /// The row of this line, counted from 1, can't stand behind those before it.
    BadAt(u64),
    /// An allocation was refused.
    Memory,
}

impl From<Memory> for RowFault {
    fn from(_error: Memory) -> RowFault {
        RowFault::Memory
    }
}

// A call of a tree that fails though no row says so had no memory.
impl From<Failed> for RowFault {
    fn from(_error: Failed) -> RowFault {
        RowFault::Memory
    }
}

impl From<AllocError> for RowFault {
    fn from(_error: AllocError) -> RowFault {
        RowFault::Memory
    }
}

impl<T: Drop> From<AllocFailed<T>> for RowFault {
    fn from(_error: AllocFailed<T>) -> RowFault {
        RowFault::Memory
    }
}

/// Why the cases weren't all run.
#[derive(Clone, Copy, Debug, PartialEq, Eq)]
pub enum TableFault {
    /// This line of the table, counted from 1, isn't well formed.
    BadLine(u64),
    /// An allocation was refused.
    Memory,
    /// The table could not be read, or the output not written.
    Outside,
}

impl From<AllocError> for TableFault {
    fn from(_error: AllocError) -> TableFault {
        TableFault::Memory
    }
}

impl From<io::Error> for TableFault {
    fn from(_error: io::Error) -> TableFault {
        TableFault::Outside
    }
}
