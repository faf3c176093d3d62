// Why a table is read no further.
use dired_text::{Failed, Memory};
use mem_tree::BuildFault;
use std::alloc::{AllocError, AllocFailed};
use std::io;
use tree_core::LookEnd;

/// Why a table is read no further.
#[derive(Clone, Copy, Debug, PartialEq, Eq)]
pub enum Stop {
    /// The line isn't well formed, has a call that can't be made, or prints a tree whose looks are to fail.
    BadLine,
    /// The input, the output or an allocation failed.
    Outside,
}

impl From<Failed> for Stop {
    fn from(_error: Failed) -> Stop {
        Stop::BadLine
    }
}

impl From<LookEnd> for Stop {
    fn from(end: LookEnd) -> Stop {
        match end {
            LookEnd::Failed => Stop::BadLine,
            LookEnd::Memory => Stop::Outside,
        }
    }
}

impl From<BuildFault> for Stop {
    fn from(fault: BuildFault) -> Stop {
        match fault {
            BuildFault::BadEntry(_) => Stop::BadLine,
            BuildFault::Memory => Stop::Outside,
        }
    }
}

impl From<Memory> for Stop {
    fn from(_error: Memory) -> Stop {
        Stop::Outside
    }
}

impl From<AllocError> for Stop {
    fn from(_error: AllocError) -> Stop {
        Stop::Outside
    }
}

impl<T: Drop> From<AllocFailed<T>> for Stop {
    fn from(_error: AllocFailed<T>) -> Stop {
        Stop::Outside
    }
}

impl From<io::Error> for Stop {
    fn from(_error: io::Error) -> Stop {
        Stop::Outside
    }
}
