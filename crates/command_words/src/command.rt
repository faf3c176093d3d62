// What can be asked for.
ghost use Rattle.std.specs.Prelude.{◌≡◌};

use dired_text::{Memory, Path, Text};
use listing_text::Switches;
use std::alloc::{AllocError, AllocFailed};
use std::marker::Model;

/// What the words of a command line ask for.
#[derive(Debug, Drop)]
pub enum Command {
    /// Print a listing: the section of the root and one of each of these directories.
    List {
        switches: Switches,
        dirs: Paths,
    },
    /// Carry out what AFTER, the edited listing, asks for against BEFORE, the listing as printed.
    Commit {
        /// Whether every file that an edit replaces is confirmed.
        all: bool,
        /// The names of the two inputs.
        before: Text,
        after: Text,
        /// The files that may be replaced.
        confirmed: Paths,
    },
    /// Bring what an interrupted commit left to exactly the old or the edited tree.
    Recover {
        /// Whether to the old one, where both can be reached.
        back: bool,
    },
    /// Commit the edits of a tree that is made in memory, and tell how many there were.
    Drill {
        /// How many directories the tree has at its root, from 1 to 20,000.
        groups: u32,
    },
}

/// Paths, in the order of the words.
#[derive(Debug, Drop)]
pub struct Paths {
    paths: Vec<Path>,
}

impl Model for Paths {
    ghost use Rattle.std.specs.Prelude.{List};
    ghost use Rattle.dired_text.specs.Paths.{Names};

    ghost Value = { List Names };

    ghost view = { λ p. p.paths.items };
}

impl Paths {
    /// Takes a list over, without memory.
    pub fn from_vec(paths: Vec<Path>) -> Self
        ensures { result ≡ paths.items }
    {
        Paths { paths }
    }

    /// The paths.
    pub fn as_slice(&self) -> &[Path]
        ensures { result.now ≡ self.now }
    {
        &self.paths
    }

    /// Gives the list back, without memory.
    pub fn into_vec(self) -> Vec<Path>
        ensures { result.items ≡ self }
    {
        self.paths
    }
}

/// Why words ask for nothing.
#[derive(Clone, Copy, Debug, PartialEq, Eq)]
pub enum WordsFault {
    /// They are no command with its arguments.
    Usage,
    /// An allocation was refused.
    Memory,
}

impl From<Memory> for WordsFault {
    ghost use Rattle.command_words.specs.declared.command.WordsFault.TheVariants as fault;

    ghost from_gives = { λ _ e. e ≡ fault.Memory };

    fn from(_error: Memory) -> WordsFault {
        WordsFault::Memory
    }
}

impl<T: Drop> From<AllocFailed<T>> for WordsFault {
    ghost use Rattle.command_words.specs.declared.command.WordsFault.TheVariants as fault;

    ghost from_gives = { λ _ e. e ≡ fault.Memory };

    fn from(_error: AllocFailed<T>) -> WordsFault {
        WordsFault::Memory
    }
}

impl From<AllocError> for WordsFault {
    ghost use Rattle.command_words.specs.declared.command.WordsFault.TheVariants as fault;

    ghost from_gives = { λ _ e. e ≡ fault.Memory };

    fn from(_error: AllocError) -> WordsFault {
        WordsFault::Memory
    }
}

impl From<clap::Error> for WordsFault {
    ghost use Rattle.clap.specs.Words.{kind_of};
    ghost use Rattle.command_words.specs.Words.{fault_of_kind};

    ghost from_gives = { λ error e. e ≡ fault_of_kind (kind_of error) };

    fn from(error: clap::Error) -> WordsFault {
        match error.kind() {
            clap::error::ErrorKind::OutOfMemory => WordsFault::Memory,
            _ => WordsFault::Usage,
        }
    }
}
