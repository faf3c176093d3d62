// What is kept of a step, to undo it.
use link_rows::RowId;

/// A step that may be undone.
#[derive(Clone, Copy, Debug, PartialEq, Eq, Drop)]
pub enum Undo {
    /// This row was taken out.
    Taken(RowId),
    /// So many rows, from this one on, were put in.
    Put(u32, u32),
}
