// A look at one step.
ghost use Rattle.std.specs.Prelude.{◌≡◌, IfOk, Some, None, is_some, if◌then◌else◌};
ghost use Rattle.dired_text.specs.Paths.{parent as parent_of};
ghost use Rattle.std.specs.FinMap.{get};
ghost use Rattle.std.specs.Option.{option_map};
ghost use Rattle.tree_core.specs.FileTree.{kind_of, is_dir_node};
ghost use Rattle.tree_core.specs.Faults.{NamesFault};
ghost use Rattle.tree_core.specs.History.{current_tree};
ghost use Rattle.tree_core.specs.Looks.{OnlyLooked, failed_in};
ghost use Rattle.commit_steps.specs.declared.step.Step.TheVariants as step_variant;
ghost use Rattle.step_looks.specs.Looks.{parents_of, look_of, look_back_of};

use crate::Parents;
use commit_steps::Step;
use dired_text::{Failed, Path};
use tree_core::{CallName, Kind, Tree};

/// What a look tells of a step.
#[derive(Clone, Copy, Debug, PartialEq, Eq)]
pub enum Seen {
    /// It is still to be done.
    Before,
    /// It was done.
    After,
}

/// What a look at a step tells: it is still to be done, it was done, or neither. A rename is still to be done where its first path
/// stands, nothing stands at its second and that one's parent is a directory, and was done where it is the other way round. A
/// directory is still to be made where nothing stands and the parent is a directory, and was made where a directory stands. A
/// mode is told by the mode of the file or directory. `parents` are the step's own.
///
/// # Errors
/// The look of this name failed.
pub fn look<T: Tree>(tree: &mut T, step: &Step, parents: &Parents) -> Result<Option<Seen>, CallName>
    requires parents { parents.now ≡ parents_of step.now }
    ensures seen { T.Tells → IfOk result (λ seen. seen ≡
        look_of step.now (current_tree (T.history tree.old))) }
    ensures looked { T.Tells → OnlyLooked (failed_in (λ call. Some call) result)
        (T.history tree.old) (T.history tree.new) (T.fields tree.old) (T.fields tree.new)
        (T.before_failed tree.old) (T.before_failed tree.new) }
    ensures faults { NamesFault (T.faults tree.old) (T.faults tree.new) result }
{
    match step {
        Step::MakeDir(path) => look_dir(tree, path, &parents.first),
        Step::Rename(from, to) => look_rename(tree, from, to, parents),
        Step::Mode(path, old, new) => look_mode(tree, path, *old, *new),
    }
}

/// What a look at a step tells that may be undone: as [`look`], but a directory that it made is empty. One with entries is neither.
///
/// # Errors
/// The look of this name failed.
pub fn look_back<T: Tree>(
    tree: &mut T,
    step: &Step,
    parents: &Parents,
) -> Result<Option<Seen>, CallName>
    requires parents { parents.now ≡ parents_of step.now }
    ensures seen { T.Tells → IfOk result (λ seen. seen ≡
        look_back_of step.now (current_tree (T.history tree.old))) }
    ensures looked { T.Tells → OnlyLooked (failed_in (λ call. Some call) result)
        (T.history tree.old) (T.history tree.new) (T.fields tree.old) (T.fields tree.new)
        (T.before_failed tree.old) (T.before_failed tree.new) }
    ensures faults { NamesFault (T.faults tree.old) (T.faults tree.new) result }
{
    match step {
        Step::MakeDir(path) => look_back_dir(tree, path, &parents.first),
        Step::Rename(from, to) => look_rename(tree, from, to, parents),
        Step::Mode(path, old, new) => look_mode(tree, path, *old, *new),
    }
}

// What stands at a path.
fn kind_at<T: Tree>(tree: &mut T, path: &Path) -> Result<Option<Kind>, CallName>
    ensures kind { T.Tells → IfOk result (λ kind. kind ≡
        option_map kind_of (get (current_tree (T.history tree.old)) path.now)) }
    ensures looked { T.Tells → OnlyLooked (failed_in (λ call. Some call) result)
        (T.history tree.old) (T.history tree.new) (T.fields tree.old) (T.fields tree.new)
        (T.before_failed tree.old) (T.before_failed tree.new) }
    ensures faults { NamesFault (T.faults tree.old) (T.faults tree.new) result }
{
    match tree.kind(path) {
        Ok(kind) => Ok(kind),
        Err(Failed) => Err(CallName::Kind),
    }
}

// Whether something stands at a path.
fn stands<T: Tree>(tree: &mut T, path: &Path) -> Result<bool, CallName>
    ensures stands { T.Tells → IfOk result (λ stands. stands ≡
        is_some (get (current_tree (T.history tree.old)) path.now)) }
    ensures looked { T.Tells → OnlyLooked (failed_in (λ call. Some call) result)
        (T.history tree.old) (T.history tree.new) (T.fields tree.old) (T.fields tree.new)
        (T.before_failed tree.old) (T.before_failed tree.new) }
    ensures faults { NamesFault (T.faults tree.old) (T.faults tree.new) result }
{
    Ok(kind_at(tree, path)?.is_some())
}

// Whether a directory stands at a path.
fn is_dir<T: Tree>(tree: &mut T, path: &Path) -> Result<bool, CallName>
    ensures dir { T.Tells → IfOk result (λ dir. dir ≡
        is_dir_node (get (current_tree (T.history tree.old)) path.now)) }
    ensures looked { T.Tells → OnlyLooked (failed_in (λ call. Some call) result)
        (T.history tree.old) (T.history tree.new) (T.fields tree.old) (T.fields tree.new)
        (T.before_failed tree.old) (T.before_failed tree.new) }
    ensures faults { NamesFault (T.faults tree.old) (T.faults tree.new) result }
{
    Ok(matches!(kind_at(tree, path)?, Some(Kind::Dir)))
}

// A look at a rename.
fn look_rename<T: Tree>(
    tree: &mut T,
    from: &Path,
    to: &Path,
    parents: &Parents,
) -> Result<Option<Seen>, CallName>
    requires parents { parents.now ≡ parents_of (step_variant.Rename from.now to.now) }
    ensures seen { T.Tells → IfOk result (λ seen. seen ≡
        look_of (step_variant.Rename from.now to.now) (current_tree (T.history tree.old))) }
    ensures looked { T.Tells → OnlyLooked (failed_in (λ call. Some call) result)
        (T.history tree.old) (T.history tree.new) (T.fields tree.old) (T.fields tree.new)
        (T.before_failed tree.old) (T.before_failed tree.new) }
    ensures faults { NamesFault (T.faults tree.old) (T.faults tree.new) result }
{
    let at_from = stands(tree, from)?;
    let at_to = stands(tree, to)?;
    if at_from && !at_to {
        return Ok(seen_where(is_dir(tree, &parents.last)?, Seen::Before));
    }
    if at_to && !at_from {
        return Ok(seen_where(is_dir(tree, &parents.first)?, Seen::After));
    }
    Ok(None)
}

// This, where a test holds.
fn seen_where(holds: bool, seen: Seen) -> Option<Seen>
    ensures { result ≡ (if holds then Some seen else None) }
{
    if holds { Some(seen) } else { None }
}

// A look at a directory that is to be made.
fn look_dir<T: Tree>(tree: &mut T, path: &Path, parent: &Path) -> Result<Option<Seen>, CallName>
    requires parent { parent.now ≡ parent_of path.now }
    ensures seen { T.Tells → IfOk result (λ seen. seen ≡
        look_of (step_variant.MakeDir path.now) (current_tree (T.history tree.old))) }
    ensures looked { T.Tells → OnlyLooked (failed_in (λ call. Some call) result)
        (T.history tree.old) (T.history tree.new) (T.fields tree.old) (T.fields tree.new)
        (T.before_failed tree.old) (T.before_failed tree.new) }
    ensures faults { NamesFault (T.faults tree.old) (T.faults tree.new) result }
{
    match kind_at(tree, path)? {
        None => Ok(seen_where(is_dir(tree, parent)?, Seen::Before)),
        Some(kind) => Ok(seen_where(kind == Kind::Dir, Seen::After)),
    }
}

// The same where it may be undone.
fn look_back_dir<T: Tree>(
    tree: &mut T,
    path: &Path,
    parent: &Path,
) -> Result<Option<Seen>, CallName>
    requires parent { parent.now ≡ parent_of path.now }
    ensures seen { T.Tells → IfOk result (λ seen. seen ≡
        look_back_of (step_variant.MakeDir path.now) (current_tree (T.history tree.old))) }
    ensures looked { T.Tells → OnlyLooked (failed_in (λ call. Some call) result)
        (T.history tree.old) (T.history tree.new) (T.fields tree.old) (T.fields tree.new)
        (T.before_failed tree.old) (T.before_failed tree.new) }
    ensures faults { NamesFault (T.faults tree.old) (T.faults tree.new) result }
{
    let seen = look_dir(tree, path, parent)?;
    if seen != Some(Seen::After) {
        return Ok(seen);
    }
    match tree.is_empty(path) {
        Ok(empty) => Ok(seen_where(empty, Seen::After)),
        Err(Failed) => Err(CallName::IsEmpty),
    }
}

// A look at a change of mode.
fn look_mode<T: Tree>(
    tree: &mut T,
    path: &Path,
    old: u16,
    new: u16,
) -> Result<Option<Seen>, CallName>
    ensures seen { T.Tells → IfOk result (λ seen. seen ≡
        look_of (step_variant.Mode path.now old new) (current_tree (T.history tree.old))) }
    ensures looked { T.Tells → OnlyLooked (failed_in (λ call. Some call) result)
        (T.history tree.old) (T.history tree.new) (T.fields tree.old) (T.fields tree.new)
        (T.before_failed tree.old) (T.before_failed tree.new) }
    ensures faults { NamesFault (T.faults tree.old) (T.faults tree.new) result }
{
    match kind_at(tree, path)? {
        None | Some(Kind::Link) => return Ok(None),
        Some(Kind::Dir) | Some(Kind::File) => {}
    }
    match tree.mode(path) {
        Err(Failed) => Err(CallName::Mode),
        Ok(mode) if mode == old => Ok(Some(Seen::Before)),
        Ok(mode) => Ok(seen_where(mode == new, Seen::After)),
    }
}
