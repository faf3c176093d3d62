/// What a commit put aside under `hN`, to be removed behind the seal.
#[derive(Clone, Copy, Debug, PartialEq, Eq)]
pub struct Held {
    /// The N of its name.
    pub number: u32,
    /// Whether it is a directory.
    pub is_dir: bool,
}
