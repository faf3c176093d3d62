// A rename, which moves a slot and all below it, or changes nothing.
ghost use Rattle.std.specs.Prelude.{◌≡◌, ◌++◌, None, Some, IfOk, OnOk, OnErr, IsSome, map, false};
ghost use Rattle.std.specs.List.{filter, list_any};
ghost use Rattle.std.specs.FinMap.{get, keys};
ghost use Rattle.dired_text.specs.Paths.{Names, is_below, rest_below as rest_of};
ghost use Rattle.tree_core.specs.FileTree.{moved};
ghost use Rattle.mem_tree.specs.Slots.{Slots};
ghost use Rattle.mem_tree.specs.Moves.{moves_of, pairs_of, with_copies, without_each, is_target, after_move};

use crate::slots::{SlotMap, copy_names, push_copies};
use dired_text::{Memory, Name, rest_below};
use std::alloc::Global;

// The names of a slot, and those that it moves to.
#[derive(Drop)]
struct Move {
    from: Vec<Name>,
    to: Vec<Name>,
}

// Where a rename takes names.
fn moved_names(
    alloc: Global,
    from: &[Name],
    to: &[Name],
    names: &[Name],
) -> Result<Vec<Name>, Memory>
    ensures { IfOk result (λ v. v.items ≡ moved from.now to.now names.now) }
{
    match rest_below(from, names) {
        None => copy_names(alloc, names),
        Some(rest) => {
            let mut all = copy_names(alloc, to)?;
            push_copies(&mut all, rest)?;
            Ok(all)
        }
    }
}

// The moves of `from` and of all below it.
fn moves(alloc: Global, slots: &SlotMap, from: &[Name], to: &[Name]) -> Result<Vec<Move>, Memory>
    requires { IsSome (get slots.now from.now) }
    ensures { IfOk result (λ v. pairs_of v.items ≡ moves_of from.now to.now slots.now) }
{
    let olds = slots.below(from)?;
    let mut moves = Vec::with_capacity(alloc, olds.len())?;
    for old in &olds {
        moves.push(Move {
            from: copy_names(alloc, old)?,
            to: moved_names(alloc, from, to, old)?,
        })?;
    }
    Ok(moves)
}

// Puts a copy of each slot at its new names. After a refusal some of them may stand there.
fn copy_slots(slots: &mut SlotMap, moves: &[Move]) -> Result<(), Memory>
    ensures ok { OnOk result (slots.new ≡ with_copies (pairs_of moves.now) slots.old) }
    ensures others { (q : Names) → is_target q (pairs_of moves.now) ≡ false → get slots.new q ≡
        get slots.old q }
{
    for one in moves {
        if let Some(slot) = slots.get(&one.from) {
            let copy = slot.copy()?;
            slots.insert(&one.to, copy)?;
        }
    }
    Ok(())
}

// Takes the slots at the old names out.
fn remove_olds(slots: &mut SlotMap, moves: &[Move])
    ensures { slots.new ≡ without_each (map (λ p. p.0) (pairs_of moves.now)) slots.old }
{
    for one in moves {
        let _ = slots.remove(&one.from);
    }
}

// Takes the slots at the new names out.
fn remove_news(slots: &mut SlotMap, moves: &[Move])
    ensures { slots.new ≡ without_each (map (λ p. p.1) (pairs_of moves.now)) slots.old }
{
    for one in moves {
        let _ = slots.remove(&one.to);
    }
}

/// Moves the slot at `from` and all below it to the same places below `to`. Memory is taken only before the first slot
/// leaves its place.
pub fn rename(alloc: Global, slots: &mut SlotMap, from: &[Name], to: &[Name]) -> Result<(), Memory>
    requires stands { IsSome (get slots.old from.now) }
    requires clear { (r : Names) → get slots.old (to.now ++ r) ≡ None }
    ensures ok { OnOk result ((q : Names) → get slots.new q ≡
        after_move (rest_of to.now q) (rest_of from.now q) (get slots.old) from.now q) }
    ensures err { OnErr result (slots.new ≡ slots.old) }
{
    let moves = moves(alloc, slots, from, to)?;
    let copied = copy_slots(slots, &moves);
    if copied.is_ok() {
        remove_olds(slots, &moves);
    } else {
        remove_news(slots, &moves);
    }
    copied
}
