// A step of a commit.
use dired_text::Path;

/// A change that a commit makes, which can be undone.
#[derive(Debug, Drop)]
pub enum Step {
    /// Makes a directory of mode 0o755.
    MakeDir(Path),
    /// Moves what stands at the first path to the second.
    Rename(Path, Path),
    /// Sets the mode of a file or directory from the first to the second.
    Mode(Path, u16, u16),
}
