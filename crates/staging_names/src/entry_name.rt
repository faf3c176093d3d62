/// What an entry in the staging directory is there for.
#[derive(Clone, Copy, Debug, PartialEq, Eq, PartialOrd, Ord)]
pub enum Role {
    /// `fN`: it is new, and waits for its place.
    Fresh,
    /// `hN`: it was put aside, to be removed in the end.
    Held,
    /// `tN`: it waits for its new name.
    Temporary,
}

/// The name of an entry in the staging directory: a letter for what it is there for, and a number in decimal.
#[derive(Clone, Copy, Debug, PartialEq, Eq, PartialOrd, Ord)]
pub struct EntryName {
    /// What it is there for.
    pub role: Role,
    /// Its number.
    pub number: u32,
}
