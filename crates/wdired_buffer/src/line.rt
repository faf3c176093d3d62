// The lines of a buffer.
use dired_text::{Bytes, Path};
use tree_core::Shown;

/// A line of a listing. Its text has no newline.
#[derive(Debug, PartialEq, Eq, Drop)]
pub enum BufferLine {
    /// The first line, a total, or an empty line between sections. No edit changes it.
    Fixed(Bytes),
    /// The header of a section, of which a hidden one has no further lines. No edit changes it.
    Header {
        text: Bytes,
        /// The directory of the section.
        dir: Path,
    },
    /// The line of an entry. Its name, its mode and the target of a link may be edited.
    Entry {
        text: Bytes,
        /// Where the name begins: a count of bytes of the text, from 0.
        name_at: u64,
        /// The path of the entry.
        source: Path,
        was: Shown,
    },
}
