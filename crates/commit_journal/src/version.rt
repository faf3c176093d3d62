/// The version of a journal. Version 1 writes each path whole. Version 2 writes it by the first bytes that it shares
/// with the path before.
#[derive(Clone, Copy, Debug, PartialEq, Eq)]
pub enum Version {
    /// `WDJ1`.
    One,
    /// `WDJ2`.
    Two,
}
