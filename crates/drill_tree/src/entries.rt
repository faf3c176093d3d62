// What the tree of a drill holds.
ghost use Rattle.std.specs.Prelude.{◌≡◌, ◌++◌, ◌<◌, ◌≤◌, ◌∷◌, ℕ, [], IfOk, IsTrue, OnOk, codes, map};
ghost use Rattle.dired_text.specs.Paths.{Names, is_name};
ghost use Rattle.drill_tree.specs.declared.group.Group.TheVariants as group;
ghost use Rattle.drill_tree.specs.Drill.{drill_held, entries_of, entry_at, group_held, held_in};
ghost use Rattle.drill_tree.specs.Groups.{cycle_name as cycle_name_of, directory, file, held as held_by, one};

use crate::Group;
use crate::group::{group_name, known_name};
use crate::moves::{cycle_name, known_path, path_of_one, path_of_two};
use dired_text::{Memory, Name, Path};
use std::alloc::Global;

/// What the tree of a drill holds at a path.
#[derive(Drop)]
pub struct Held {
    pub path: Path,
    /// Whether it is a directory, and not a file.
    pub is_dir: bool,
}

/// All that the tree of a drill of so many groups holds but the root, 20,000 groups at most: the directory of each group, and behind
/// it what stands in it, each directory before what it holds.
///
/// # Errors
/// Want of memory.
pub fn drill_entries(alloc: Global, groups: u32) -> Result<Vec<Held>, Memory>
    requires { groups ≤ 20000 }
    ensures held { IfOk result (λ v. v.items ≡ drill_held groups) }
    ensures entries { IfOk result (λ v. (numbers : Names → ℕ) →
        map (entry_at numbers) v.items ≡ entries_of numbers groups) }
{
    let mut entries = Vec::new(alloc);
    for number in 0..groups {
        add_group(alloc, &mut entries, number)?;
    }
    Ok(entries)
}

// Adds the directory of a group, and what stands in it.
fn add_group(alloc: Global, entries: &mut Vec<Held>, number: u32) -> Result<(), Memory>
    requires { number < 1000000 }
    ensures { OnOk result (entries.new.items ≡ entries.old.items ++ group_held number) }
{
    let dir = group_name(alloc, number)?;
    add_dir(alloc, entries, &dir)?;
    match Group::of(number) {
        Group::Chain => add_three(alloc, entries, &dir),
        Group::Cycle(len) => add_cycle(alloc, entries, &dir, len),
        Group::Nested | Group::Swallowing => add_nested(alloc, entries, &dir),
        Group::Replacing => add_two(alloc, entries, &dir),
    }
}

// Adds the directory of a group.
fn add_dir(alloc: Global, entries: &mut Vec<Held>, dir: &Name) -> Result<(), Memory>
    ensures { OnOk result (entries.new.items ≡ entries.old.items ++ directory (one dir.now) ∷ []) }
{
    let names = [known_name(alloc, dir.as_str())?];
    entries.push(Held {
        path: known_path(alloc, &names)?,
        is_dir: true,
    })?;
    Ok(())
}

fn add_three(alloc: Global, entries: &mut Vec<Held>, dir: &Name) -> Result<(), Memory>
    ensures { OnOk result (entries.new.items ≡ entries.old.items ++
        map (held_in dir.now) (held_by group.Chain)) }
{
    add_file(alloc, entries, dir, "a")?;
    add_file(alloc, entries, dir, "b")?;
    add_file(alloc, entries, dir, "c")
}

fn add_two(alloc: Global, entries: &mut Vec<Held>, dir: &Name) -> Result<(), Memory>
    ensures { OnOk result (entries.new.items ≡ entries.old.items ++
        map (held_in dir.now) (held_by group.Replacing)) }
{
    add_file(alloc, entries, dir, "a")?;
    add_file(alloc, entries, dir, "b")
}

fn add_cycle(alloc: Global, entries: &mut Vec<Held>, dir: &Name, len: u32) -> Result<(), Memory>
    requires { len ≤ 10 }
    ensures { OnOk result (entries.new.items ≡ entries.old.items ++
        map (held_in dir.now) (held_by (group.Cycle len))) }
{
    for number in 0..len {
        add_numbered(alloc, entries, dir, number)?;
    }
    Ok(())
}

// Adds one file of a cycle.
fn add_numbered(
    alloc: Global,
    entries: &mut Vec<Held>,
    dir: &Name,
    number: u32,
) -> Result<(), Memory>
    requires { number ≤ 9 }
    ensures { OnOk result (entries.new.items ≡ entries.old.items ++
        held_in dir.now (file (one (cycle_name_of number))) ∷ []) }
{
    let name = cycle_name(alloc, number)?;
    add_file(alloc, entries, dir, name.as_str())
}

fn add_nested(alloc: Global, entries: &mut Vec<Held>, dir: &Name) -> Result<(), Memory>
    ensures { OnOk result (entries.new.items ≡ entries.old.items ++
        map (held_in dir.now) (held_by group.Nested)) }
{
    entries.push(Held {
        path: path_of_one(alloc, dir, "s")?,
        is_dir: true,
    })?;
    entries.push(Held {
        path: path_of_two(alloc, dir, "s", "x")?,
        is_dir: false,
    })?;
    Ok(())
}

// Adds a file of a group's directory.
fn add_file(alloc: Global, entries: &mut Vec<Held>, dir: &Name, name: &str) -> Result<(), Memory>
    requires { IsTrue (is_name name.now) }
    ensures { OnOk result (entries.new.items ≡ entries.old.items ++
        held_in dir.now (file (one name.now)) ∷ []) }
{
    entries.push(Held {
        path: path_of_one(alloc, dir, name)?,
        is_dir: false,
    })?;
    Ok(())
}
