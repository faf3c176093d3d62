// What is kept of a change, to undo it.
use link_rows::RowId;

/// A change that may be undone.
#[derive(Clone, Copy, Debug, PartialEq, Eq, Drop)]
pub enum Kept {
    /// So many rows were taken out.
    Kill(usize),
    /// A section was put in behind so many rows, with this row as its head.
    Insertion(usize, RowId),
}
