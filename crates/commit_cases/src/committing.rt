// A commit whose calls fail as the case says.
ghost use Rattle.commit_plan.specs.Promises.{IsOldTree};
ghost use Rattle.tree_core.specs.History.{current_tree};

use crate::checking::check_asked;
use crate::commit_report::push_end;
use crate::report::answer_text;
use case_tables::{RowFault, STOPPED, Schedule, settle, tree_behind};
use commit_run::{CommitEnd, commit};
use edit_check::Checked;
use mem_tree::MemTree;
use std::alloc::Global;
use tree_core::{Changes, Confirmed, Tree};

/// Has changes checked and committed, and answers what is printed: how the check ends and, where it refuses nothing, how the commit
/// ends, the tree that stands then, and whether something is pending. Of a commit that is stopped the end isn't known, and an image
/// stands. The calls that fail are counted from the commit on.
///
/// # Errors
/// `Bad` where the changes can't be asked for, or where there is no image of the number at which the commit is stopped.
pub fn commit_asked(
    alloc: Global,
    tree: MemTree,
    changes: Changes,
    confirmed: &Confirmed,
    schedule: &Schedule,
) -> Result<String, RowFault> {
    let mut tree = tree;
    let answer = check_asked(alloc, &mut tree, changes, confirmed)?;
    let mut text = answer_text(alloc, &answer)?;
    let checked = match answer {
        Ok(checked) => checked,
        Err(_fault) => return Ok(text),
    };
    schedule.begin(&mut tree)?;
    let Some(end) = commit_settled(alloc, &mut tree, checked) else {
        return Err(RowFault::Memory);
    };
    match schedule.image {
        Some(_) => text.push_str(STOPPED)?,
        None => push_end(&mut text, end)?,
    }
    tree_behind(alloc, &mut text, tree, schedule.image)?;
    Ok(text)
}

// Commits once nothing is pending, or answers None where the sync before it failed.
fn commit_settled<T: Tree>(alloc: Global, tree: &mut T, checked: Checked) -> Option<CommitEnd>
    requires { T.Tells → IsOldTree checked (current_tree (T.history tree.old)) }
{
    if !settle(tree) {
        return None;
    }
    Some(commit(alloc, tree, checked))
}
