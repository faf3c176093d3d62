// What a drill counts.

/// How much a drill found, did and left.
#[derive(Clone, Copy, Debug, PartialEq, Eq)]
pub struct DrillCounts {
    /// The entries of the tree that it found, without the root.
    pub entries: u32,
    /// The lines that change something.
    pub edits: u32,
    /// The groups whose files go round in a cycle.
    pub cycles: u32,
    /// The files that were replaced.
    pub replaced: u32,
    /// The entries that took a temporary name on their way.
    pub temporaries: u32,
    /// The steps of the plan.
    pub steps: u32,
    /// The entries of the tree that it left, without the root.
    pub left: u32,
}
