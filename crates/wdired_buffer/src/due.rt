// What a line of a buffer has to be.
use dired_text::Path;

/// What is due at a line, by the lines before it.
#[derive(Drop)]
pub enum Due {
    /// The line `dired 1`.
    First,
    /// The header of a section.
    Header,
    /// The total of the section of this directory.
    Total(Path),
    /// A file's line of the section of this directory, or its end.
    Rows(Path),
    /// The end of a hidden section.
    Gap,
}
