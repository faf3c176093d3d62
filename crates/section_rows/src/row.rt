// What a row of a buffer holds.
use dired_text::Path;
use listing_text::Line;

/// A row of a buffer: the head of a section, or a line of it.
#[derive(Debug, Drop)]
pub enum BufferRow {
    /// The directory of the section, and whether its lines are hidden.
    Head { dir: Path, hidden: bool },
    Line(Line),
}
