// The check of changes that can be asked for.
ghost use Rattle.std.specs.Prelude.{IfOk};
ghost use Rattle.tree_core.specs.History.{current_tree};
ghost use Rattle.commit_plan.specs.Promises.{IsOldTree};

use asked_changes::{can_be_asked, links_have_files};
use case_tables::RowFault;
use edit_check::{CheckFault, Checked, check};
use std::alloc::Global;
use tree_core::{Changes, Confirmed, Tree};

/// How the check of these changes ends.
///
/// # Errors
/// `Bad` where they can't be asked for.
pub fn check_asked<T: Tree>(
    alloc: Global,
    tree: &mut T,
    changes: Changes,
    confirmed: &Confirmed,
) -> Result<Result<Checked, CheckFault>, RowFault>
    ensures { T.Tells → IfOk result (λ answer. IfOk answer (λ c.
        IsOldTree c (current_tree (T.history tree.new)))) }
{
    let are_asked = can_be_asked(alloc, &changes)?;
    let have_files = links_have_files(tree, &changes)?;
    if !are_asked || !have_files {
        return Err(RowFault::Bad);
    }
    match check(alloc, tree, changes, confirmed) {
        Ok(checked) => Ok(Ok(checked)),
        Err(CheckFault::Memory) => Err(RowFault::Memory),
        Err(fault) => Ok(Err(fault)),
    }
}
