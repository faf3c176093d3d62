// What a plan is.
use commit_steps::Steps;
use tree_core::Fresh;

/// The steps that carry out checked changes, and the entries that have to be made first, as `f0`, `f1` and so on in the staging
/// directory.
#[derive(Drop)]
pub struct Plan {
    pub steps: Steps,
    pub fresh: Vec<Fresh>,
}
