// The moves of the edits of a drill.
ghost use Rattle.std.specs.Prelude.{◌≡◌, ◌++◌, ◌<◌, ◌≤◌, ◌∷◌, [], IfOk, IsTrue, OnOk, codes, map};
ghost use Rattle.dired_text.specs.Paths.{is_name, max_path_bytes, path_bytes};
ghost use Rattle.drill_tree.specs.declared.group.Group.TheVariants as group;
ghost use Rattle.drill_tree.specs.Drill.{drill_moves as drill_moves_of, group_moves, in_dir};
ghost use Rattle.drill_tree.specs.Groups.{cycle_name as cycle_name_of, moves as moves_of, moves_directory, moves_file, one};

use crate::Group;
use crate::group::{digit, group_name, known_name};
use dired_text::{Memory, Name, Path};
use std::alloc::Global;

/// An entry that gets another path.
#[derive(Drop)]
pub struct Move {
    pub source: Path,
    pub is_dir: bool,
    pub to: Path,
}

// The moves of so many groups.
pub(crate) fn drill_moves(alloc: Global, groups: u32) -> Result<Vec<Move>, Memory>
    requires { groups ≤ 1000000 }
    ensures { IfOk result (λ v. v.items ≡ drill_moves_of groups) }
{
    let mut moves = Vec::new(alloc);
    for number in 0..groups {
        add_group(alloc, &mut moves, number)?;
    }
    Ok(moves)
}

// Adds the moves of a group.
fn add_group(alloc: Global, moves: &mut Vec<Move>, number: u32) -> Result<(), Memory>
    requires { number < 1000000 }
    ensures { OnOk result (moves.new.items ≡ moves.old.items ++ group_moves number) }
{
    let dir = group_name(alloc, number)?;
    match Group::of(number) {
        Group::Chain => add_chain(alloc, moves, &dir),
        Group::Cycle(len) => add_cycle(alloc, moves, &dir, len),
        Group::Nested => add_nested(alloc, moves, &dir),
        Group::Replacing => add_file(alloc, moves, &dir, "a", "b"),
        Group::Swallowing => add_swallowing(alloc, moves, &dir),
    }
}

fn add_chain(alloc: Global, moves: &mut Vec<Move>, dir: &Name) -> Result<(), Memory>
    ensures { OnOk result (moves.new.items ≡ moves.old.items ++
        map (in_dir dir.now) (moves_of group.Chain)) }
{
    add_file(alloc, moves, dir, "a", "b")?;
    add_file(alloc, moves, dir, "b", "c")?;
    add_file(alloc, moves, dir, "c", "d")
}

fn add_cycle(alloc: Global, moves: &mut Vec<Move>, dir: &Name, len: u32) -> Result<(), Memory>
    requires { len ≤ 10 }
    ensures { OnOk result (moves.new.items ≡ moves.old.items ++
        map (in_dir dir.now) (moves_of (group.Cycle len))) }
{
    for number in 0..len {
        add_turn(alloc, moves, dir, number, (number + 1) % len)?;
    }
    Ok(())
}

// Adds the move of one file of a cycle to the name of another.
fn add_turn(
    alloc: Global,
    moves: &mut Vec<Move>,
    dir: &Name,
    number: u32,
    next: u32,
) -> Result<(), Memory>
    requires number { number ≤ 9 }
    requires next { next ≤ 9 }
    ensures { OnOk result (moves.new.items ≡ moves.old.items ++
        in_dir dir.now (moves_file (one (cycle_name_of number)) (one (cycle_name_of next))) ∷ []) }
{
    let source = cycle_name(alloc, number)?;
    let to = cycle_name(alloc, next)?;
    add_file(alloc, moves, dir, source.as_str(), to.as_str())
}

fn add_nested(alloc: Global, moves: &mut Vec<Move>, dir: &Name) -> Result<(), Memory>
    ensures { OnOk result (moves.new.items ≡ moves.old.items ++
        map (in_dir dir.now) (moves_of group.Nested)) }
{
    moves.push(Move {
        source: path_of_two(alloc, dir, "s", "x")?,
        is_dir: false,
        to: path_of_two(alloc, dir, "s", "y")?,
    })?;
    add_directory(alloc, moves, dir)
}

fn add_swallowing(alloc: Global, moves: &mut Vec<Move>, dir: &Name) -> Result<(), Memory>
    ensures { OnOk result (moves.new.items ≡ moves.old.items ++
        map (in_dir dir.now) (moves_of group.Swallowing)) }
{
    moves.push(Move {
        source: path_of_two(alloc, dir, "s", "x")?,
        is_dir: false,
        to: path_of_one(alloc, dir, "s")?,
    })?;
    add_directory(alloc, moves, dir)
}

// Adds the move of a file in a group's directory.
fn add_file(
    alloc: Global,
    moves: &mut Vec<Move>,
    dir: &Name,
    source: &str,
    to: &str,
) -> Result<(), Memory>
    requires source { IsTrue (is_name source.now) }
    requires to { IsTrue (is_name to.now) }
    ensures { OnOk result (moves.new.items ≡ moves.old.items ++
        in_dir dir.now (moves_file (one source.now) (one to.now)) ∷ []) }
{
    moves.push(Move {
        source: path_of_one(alloc, dir, source)?,
        is_dir: false,
        to: path_of_one(alloc, dir, to)?,
    })?;
    Ok(())
}

// Adds the move of the directory `s` to `r`.
fn add_directory(alloc: Global, moves: &mut Vec<Move>, dir: &Name) -> Result<(), Memory>
    ensures { OnOk result (moves.new.items ≡ moves.old.items ++
        in_dir dir.now (moves_directory (one (codes "s")) (one (codes "r"))) ∷ []) }
{
    moves.push(Move {
        source: path_of_one(alloc, dir, "s")?,
        is_dir: true,
        to: path_of_one(alloc, dir, "r")?,
    })?;
    Ok(())
}

// The name of a file of a cycle.
pub(crate) fn cycle_name(alloc: Global, number: u32) -> Result<Name, Memory>
    requires { number ≤ 9 }
    ensures { IfOk result (λ n. n ≡ cycle_name_of number) }
{
    let mut text = String::new(alloc);
    text.push('c')?;
    text.push(digit(number))?;
    known_name(alloc, text.as_str())
}

// The path of this name in a directory of the root.
pub(crate) fn path_of_one(alloc: Global, dir: &Name, name: &str) -> Result<Path, Memory>
    requires name { IsTrue (is_name name.now) }
    ensures { IfOk result (λ p. p ≡ dir.now ∷ name.now ∷ []) }
{
    let names = [known_name(alloc, dir.as_str())?, known_name(alloc, name)?];
    known_path(alloc, &names)
}

// The path of a name in a directory of such a directory.
pub(crate) fn path_of_two(
    alloc: Global,
    dir: &Name,
    inner: &str,
    name: &str,
) -> Result<Path, Memory>
    requires inner { IsTrue (is_name inner.now) }
    requires name { IsTrue (is_name name.now) }
    ensures { IfOk result (λ p. p ≡ dir.now ∷ inner.now ∷ name.now ∷ []) }
{
    let names = [
        known_name(alloc, dir.as_str())?,
        known_name(alloc, inner)?,
        known_name(alloc, name)?,
    ];
    known_path(alloc, &names)
}

// The path of names that aren't too long.
pub(crate) fn known_path(alloc: Global, names: &[Name]) -> Result<Path, Memory>
    requires { path_bytes names.now ≤ max_path_bytes }
    ensures { IfOk result (λ p. p ≡ names.now) }
{
    match Path::join(alloc, names)? {
        Some(path) => Ok(path),
        None => unreachable!(),
    }
}
