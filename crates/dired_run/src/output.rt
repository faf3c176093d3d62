// What a command writes that was done.
use dired_text::Bytes;

/// What a command writes that was done. All but `Lines` takes no memory.
#[derive(Debug, Drop)]
pub enum Output {
    /// Lines that were made before the tree was changed.
    Lines(Bytes),
    /// There was nothing to recover.
    Nothing,
    /// A recovery led to the edited tree.
    Edited,
    /// A recovery led to the old tree.
    Old,
    /// A recovery removed a staging directory that had no journal.
    Cleared,
}
