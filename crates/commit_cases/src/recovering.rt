// A recovery whose calls fail as the case says.
use crate::recovery_report::push_recovery_end;
use case_tables::{RowFault, STOPPED, Schedule, settle, tree_behind};
use commit_recover::recover;
use mem_tree::MemTree;
use std::alloc::Global;

/// Has what a commit left in a tree recovered, and answers what is printed: how the recovery ends, the tree that stands then, and whether
/// something is pending. Of a recovery that is stopped the end isn't known.
///
/// # Errors
/// `Bad` where there is no image of the number at which it is stopped.
pub fn recover_scheduled(
    alloc: Global,
    tree: MemTree,
    back: bool,
    schedule: &Schedule,
) -> Result<String, RowFault> {
    let mut tree = tree;
    let mut text = String::new(alloc);
    schedule.begin(&mut tree)?;
    if !settle(&mut tree) {
        return Err(RowFault::Memory);
    }
    let end = recover(alloc, &mut tree, back);
    match schedule.image {
        Some(_) => text.push_str(STOPPED)?,
        None => push_recovery_end(&mut text, &end)?,
    }
    tree_behind(alloc, &mut text, tree, schedule.image)?;
    Ok(text)
}
