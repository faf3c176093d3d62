// Changing calls that were made.
ghost use Rattle.std.specs.Prelude.{◌≡◌, ◌++◌, [], ◌∷◌, OnOk, OnErr, true};
ghost use Rattle.tree_core.specs.FileTree.{IsTree, CanDo};

use crate::store::Store;
use dired_text::Memory;
use tree_core::Change;

/// A changing call, and what became of it.
#[derive(Drop)]
pub struct Attempt {
    pub change: Change,
    /// The number that a file of it got, or would have got.
    pub number: u64,
    pub is_done: bool,
    pub is_ok: bool,
}

ghost use Rattle.mem_tree.specs.Stores.{tree_of, times_of, FilesBelow};
ghost use Rattle.mem_tree.specs.Records.{tree_with, times_with};

/// Does a call of the record, where it is to be done.
pub fn redo(store: &mut Store, attempt: &Attempt) -> Result<(), Memory>
    requires tree { IsTree (tree_of store.old) }
    requires can { attempt.now.is_done ≡ true → CanDo attempt.now.change (tree_of store.old) }
    requires new { FilesBelow attempt.now.number (tree_of store.old) }
    ensures tree { OnOk result (tree_of store.new ≡ tree_with attempt.now (tree_of store.old)) }
    ensures times { OnOk result (times_of store.new ≡ times_with attempt.now (times_of store.old)) }
    ensures err_tree { OnErr result (tree_of store.new ≡ tree_of store.old) }
    ensures err_times { OnErr result (times_of store.new ≡ times_of store.old) }
{
    if attempt.is_done {
        store.apply(&attempt.change, attempt.number)?;
    }
    Ok(())
}

/// Does a call, where it is to be done, and adds it to the record.
pub fn do_call(
    store: &mut Store,
    attempts: &mut Vec<Attempt>,
    attempt: Attempt,
) -> Result<(), Memory>
    requires tree { IsTree (tree_of store.old) }
    requires can { CanDo attempt.change (tree_of store.old) }
    requires new { FilesBelow attempt.number (tree_of store.old) }
    ensures attempts { OnOk result (attempts.new.items ≡ attempts.old.items ++ attempt ∷ []) }
    ensures tree { OnOk result (tree_of store.new ≡ tree_with attempt (tree_of store.old)) }
    ensures times { OnOk result (times_of store.new ≡ times_with attempt (times_of store.old)) }
    ensures err_attempts { OnErr result (attempts.new.items ≡ attempts.old.items) }
    ensures err_tree { OnErr result (tree_of store.new ≡ tree_of store.old) }
    ensures err_times { OnErr result (times_of store.new ≡ times_of store.old) }
{
    attempts.reserve(1)?;
    redo(store, &attempt)?;
    attempts.push(attempt)?;
    Ok(())
}
