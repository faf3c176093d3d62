// What can be wrong with a file's line.

/// The fields of a file's line, from left to right.
#[derive(Clone, Copy, Debug, PartialEq, Eq)]
pub enum Field {
    Mark,
    Kind,
    Mode,
    Links,
    Owner,
    Group,
    Size,
    Date,
    Name,
    Target,
}

/// Why a text is no file's line.
#[derive(Clone, Copy, Debug, PartialEq, Eq)]
pub enum LineFault {
    /// The first bad field from the left.
    Bad {
        field: Field,
        /// Where the field begins, behind its spaces: a count of bytes from 0.
        place: u64,
    },
    /// An allocation was refused.
    Memory,
}
