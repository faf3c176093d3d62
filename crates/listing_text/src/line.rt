// What a file's line shows.
use dired_text::Text;
use tree_core::Kind;

/// What a line of a listing shows of a file, a directory or a link.
#[derive(Debug, PartialEq, Eq, Drop)]
pub struct Line {
    pub kind: Kind,
    /// At most 0o7777; 0o777 for a link.
    pub mode: u16,
    /// The count of hard links.
    pub links: u32,
    /// 1 to 64 bytes from 33 to 126.
    pub owner: Text,
    /// 1 to 64 bytes from 33 to 126.
    pub group: Text,
    /// In bytes.
    pub size: u64,
    /// Minutes from 1970-01-01 00:00 UTC.
    pub minute: i64,
    /// The text of a path, not escaped. It isn't empty and has no NUL.
    pub name: Text,
    /// Of a link 1 to 4,095 bytes without NUL, not escaped; else empty.
    pub target: Text,
}

/// The widths of the columns of a section, in bytes. What is wider than its column is written whole.
#[derive(Clone, Copy, Debug, PartialEq, Eq)]
pub struct Widths {
    pub links: u8,
    pub owner: u8,
    pub group: u8,
    pub size: u8,
}
