// What is kept of a change, to undo it.
use dired_text::Path;

/// A change that may be undone.
#[derive(Debug, Drop)]
pub enum Kept {
    /// So many kills.
    Kills(usize),
    /// The section of this directory was hidden or shown.
    Turning(Path),
}
