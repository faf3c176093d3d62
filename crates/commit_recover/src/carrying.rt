// What a recovery does behind its start.
ghost use Rattle.std.specs.Prelude.{◌≡◌, IfOk, true};
ghost use Rattle.commit_recover.specs.Courses.{unless_strange as unless_strange_end};
ghost use Rattle.commit_recover.specs.Tasks.{CanCarryOut, FollowsSynced, FollowsTask, IsReady, is_worked};
ghost use Rattle.tree_core.specs.declared.node.Change.TheVariants.{Sync};
ghost use Rattle.tree_core.specs.Faults.{NamesFault};
ghost use Rattle.tree_core.specs.History.{Then};

use crate::RecoverEnd;
use crate::task::Task;
use commit_calls::{sync, unstage};
use recovery_calls::{back_from, close, forward_from, turned_back_from};
use tree_core::{CallName, Tree};

/// Makes durable what stands, carries a task out, and answers how the recovery ended.
///
/// # Errors
/// The call of this name failed. The calls before it were done.
pub(crate) fn sync_and_carry_out<T: Tree>(tree: &mut T, task: &Task) -> Result<RecoverEnd, CallName>
    requires ready { IsReady task.now }
    requires can { T.Tells → CanCarryOut task.now (Then (T.history tree.old) Sync) }
    ensures follows { T.Tells → FollowsSynced task.now (T.history tree.old) (T.history tree.new)
        (T.before_failed tree.old) (T.before_failed tree.new) result }
    ensures worked { IfOk result (λ ended. is_worked ended ≡ true) }
    ensures cause { NamesFault (T.faults tree.old) (T.faults tree.new) result }
{
    sync(tree)?;
    carry_out(tree, task)
}

// Carries a task out.
fn carry_out<T: Tree>(tree: &mut T, task: &Task) -> Result<RecoverEnd, CallName>
    requires ready { IsReady task.now }
    requires can { T.Tells → CanCarryOut task.now (T.history tree.old) }
    ensures follows { T.Tells → FollowsTask task.now (T.history tree.old) (T.history tree.new)
        (T.before_failed tree.old) (T.before_failed tree.new) result }
    ensures worked { IfOk result (λ ended. is_worked ended ≡ true) }
    ensures cause { NamesFault (T.faults tree.old) (T.faults tree.new) result }
{
    match task {
        Task::Clear { entries, paths } => {
            unstage(tree, entries, &paths.staging)?;
            Ok(RecoverEnd::Cleared)
        }
        Task::Seal { items, paths } => {
            close(tree, items, &paths.sealed, &paths.staging)?;
            Ok(RecoverEnd::Edited)
        }
        Task::Undo { items, paths } => {
            close(tree, items, &paths.undone, &paths.staging)?;
            Ok(RecoverEnd::Old)
        }
        Task::Forward { work, way } => {
            Ok(unless_strange(forward_from(tree, work, way)?, RecoverEnd::Edited))
        }
        Task::Back { work, way } => {
            Ok(unless_strange(back_from(tree, work, way)?, RecoverEnd::Old))
        }
        Task::Turn { work, turn } => {
            Ok(unless_strange(turned_back_from(tree, work, turn)?, RecoverEnd::Old))
        }
    }
}

// This end, unless something strange was found.
fn unless_strange(strange: Option<usize>, end: RecoverEnd) -> RecoverEnd
    ensures { result ≡ unless_strange_end strange end }
{
    match strange {
        Some(step) => RecoverEnd::Strange { step: step as u64 },
        None => end,
    }
}
