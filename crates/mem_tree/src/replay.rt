// Pending calls, done again.
ghost use Rattle.std.specs.Prelude.{[], ◌∷◌, IfOk, OnOk};
ghost use Rattle.tree_core.specs.FileTree.{IsTree};
ghost use Rattle.mem_tree.specs.Choices.{takes};
ghost use Rattle.mem_tree.specs.Stores.{tree_of, FilesBelow};
ghost use Rattle.mem_tree.specs.Images.{Replays, CanReplay, picked, stand_in};

use crate::choices::Choice;
use crate::store::Store;
use dired_text::Memory;
use tree_core::Change;

// Applies a call where its condition holds, and else leaves the store as it is.
fn replay_call(store: &mut Store, call: &(u64, Change)) -> Result<(), Memory>
    requires tree { IsTree (tree_of store.old) }
    requires new { FilesBelow call.now.0 (tree_of store.old) }
    ensures { OnOk result (Replays (call.now ∷ []) (stand_in store.old) (stand_in store.new)) }
{
    if store.can(&call.1) {
        store.apply(&call.1, call.0)?;
    }
    Ok(())
}

/// What the chosen calls make of a copy of a store.
pub fn replay(base: &Store, calls: &[(u64, Change)], choice: Choice) -> Result<Store, Memory>
    requires { CanReplay calls.now (tree_of base.now) }
    ensures { IfOk result
        (λ s. Replays (picked (takes choice) calls.now) (stand_in base.now) (stand_in s)) }
{
    let mut store = base.copy()?;
    for (place, call) in calls.iter().enumerate() {
        if choice.takes(place) {
            replay_call(&mut store, call)?;
        }
    }
    Ok(store)
}
