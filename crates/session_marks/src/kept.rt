// What is kept of a change of the marks.
use dired_text::Path;

/// What leads back from the marks after a change to those before it.
#[derive(Drop)]
pub enum Kept {
    /// What each path that got another mark had.
    Differences(Vec<(Path, Option<u8>)>),
    /// The last copy of all marks that the table keeps.
    Copy,
}
