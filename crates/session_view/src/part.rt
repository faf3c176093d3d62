// What a command changed.

/// The part of a view that a command changed.
#[derive(Clone, Copy, Debug, PartialEq, Eq, Drop)]
pub enum Part {
    /// The marks.
    Marks,
    /// The sections of the buffer.
    Sections,
    /// Whether lines are omitted.
    Omitting,
}
