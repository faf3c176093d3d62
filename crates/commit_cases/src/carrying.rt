// How the steps of a plan are carried out, in the tree of the case.
use crate::report::push_step;
use case_tables::{RowFault, make, path_of, push_tree};
use commit_plan::Plan;
use commit_steps::Step;
use dired_text::{Memory, Path};
use mem_tree::MemTree;
use std::alloc::Global;
use tree_core::{Change, Fresh, Kind, Tree};

const STAGING: &str = ".wdired-commit";

const STAGING_MODE: u16 = 0o700;

const NEW_DIR_MODE: u16 = 0o755;

/// Makes the staging directory and the entries that a plan needs there, carries out its steps, and prints what is left in the
/// staging directory and the tree outside it. Where a step can't be carried out, it is printed in place of all this.
pub fn carry_out(
    alloc: Global,
    text: &mut String,
    tree: &mut MemTree,
    plan: &Plan,
) -> Result<(), RowFault> {
    let staging = path_of(alloc, STAGING)?;
    lay_out(alloc, tree, &plan.fresh)?;
    for step in plan.steps.as_slice() {
        if !carry(tree, &call_of(step)?)? {
            text.push_str("can't be carried out: ")?;
            push_step(text, step)?;
            return Ok(());
        }
    }
    push_left(alloc, text, tree, &staging)?;
    push_tree(alloc, text, tree, Some(&staging))
}

// Makes the staging directory, and in it the entries `f0`, `f1` and so on. `Bad` where they can't be made.
fn lay_out(alloc: Global, tree: &mut MemTree, fresh: &[Fresh]) -> Result<(), RowFault> {
    lay(
        tree,
        &Change::MakeDir(path_of(alloc, STAGING)?, STAGING_MODE),
    )?;
    for (number, fresh) in fresh.iter().enumerate() {
        let spot = format!(in alloc; "{STAGING}/f{number}")?;
        lay(tree, &call_for(path_of(alloc, spot.as_str())?, fresh)?)?;
    }
    Ok(())
}

fn lay(tree: &mut MemTree, call: &Change) -> Result<(), RowFault> {
    if carry(tree, call)? {
        Ok(())
    } else {
        Err(RowFault::Bad)
    }
}

// The call that makes an entry.
fn call_for(spot: Path, fresh: &Fresh) -> Result<Change, RowFault> {
    Ok(match fresh {
        Fresh::Link(target) => Change::MakeLink(spot, target.copy()?),
        Fresh::File(bytes, mode) => Change::WriteFile(spot, bytes.copy()?, *mode),
        Fresh::Same(path) => Change::MakeHard(spot, path.copy()?),
    })
}

// The call that carries out a step.
fn call_of(step: &Step) -> Result<Change, Memory> {
    Ok(match step {
        Step::MakeDir(path) => Change::MakeDir(path.copy()?, NEW_DIR_MODE),
        Step::Rename(from, to) => Change::Rename(from.copy()?, to.copy()?),
        Step::Mode(path, _, mode) => Change::SetMode(path.copy()?, *mode),
    })
}

// Makes a call, and answers whether it can be made.
fn carry(tree: &mut MemTree, call: &Change) -> Result<bool, RowFault> {
    if !tree.can(call) {
        return Ok(false);
    }
    make(tree, call)?;
    Ok(true)
}

// Prints the names that are left in the staging directory.
fn push_left<T: Tree>(
    alloc: Global,
    text: &mut String,
    tree: &mut T,
    staging: &Path,
) -> Result<(), RowFault> {
    text.push_str("left")?;
    if let Ok(Some(Kind::Dir)) = tree.kind(staging) {
        let Ok(names) = tree.names(alloc, staging) else {
            return Err(RowFault::Memory);
        };
        for name in &names {
            text.push(' ')?;
            text.push_str(name.as_str())?;
        }
    }
    text.push_str("\n")?;
    Ok(())
}
