// How a commit ends.
use tree_core::CallName;

/// How a commit ended.
#[derive(Clone, Copy, Debug, PartialEq, Eq)]
pub enum CommitEnd {
    /// The edited tree stands, and nothing is pending.
    Done,
    /// Memory was refused before anything was changed.
    Memory,
    /// The first `sync` failed, and nothing was changed.
    TreeFault { first: CallName },
    /// A call failed, and every change was taken back: the old tree stands, and nothing is pending.
    RolledBack { first: CallName },
    /// A call failed, and then another one on the way back. A recovery leads to the old or to the edited tree.
    Unfinished { first: CallName, second: CallName },
    /// The edited tree stands, but a call failed when the journal was sealed or cleared away. A recovery ends what is left.
    Unclean { first: CallName },
}
