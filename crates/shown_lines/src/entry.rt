// A shown line.
use dired_text::Path;
use tree_core::Kind;

/// A line that prints: the path that its name has from the directory of its section, what tests read of it, and its number
/// among the lines of the printed buffer, of which `dired 1` is the first.
#[derive(Debug, Drop)]
pub struct Entry {
    pub path: Path,
    pub kind: Kind,
    pub mode: u16,
    pub number: u32,
}
