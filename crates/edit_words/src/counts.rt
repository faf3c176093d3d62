// How much is changed.

/// How much changes change. Each is a number of lines, but `made`.
#[derive(Clone, Copy, Debug, PartialEq, Eq)]
pub struct Counts {
    /// Edits with a new path.
    pub renamed: u32,
    /// Links with a new target.
    pub retargeted: u32,
    /// Edits with a new mode.
    pub modes: u32,
    /// Entries that are replaced.
    pub replaced: u32,
    /// Directories that are made above new paths.
    pub made: u32,
    /// Removals.
    pub removed: u32,
    /// Creations.
    pub created: u32,
}
