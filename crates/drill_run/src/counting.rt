// The counts of a drill.
ghost use Rattle.std.specs.Prelude.{◌≡◌, ◌+◌, ◌≤◌, if◌then◌else◌, IfErr, IfOk, length};
ghost use Rattle.std.specs.Prelude.{ℕ};
ghost use Rattle.dired_text.specs.Paths.{Names};
ghost use Rattle.tree_core.specs.FileTree.{FileTree};
ghost use Rattle.tree_core.specs.History.{current_tree};
ghost use Rattle.tree_core.specs.Looks.{failed_in, faults_with};
ghost use Rattle.edit_check.specs.StandFor.{StandsFor};
ghost use Rattle.drill_tree.specs.Drill.{IsDrillTree, entries_of};
ghost use Rattle.drill_tree.specs.Groups.{group_of, held};
ghost use Rattle.drill_run.specs.Counts.{HasShortPaths, IsCheckedDrill, counts_with, cycle_count, entry_count, is_cycle};
ghost use Rattle.drill_run.specs.Ends.{IsOfLook, failed_look};

use crate::{DrillCounts, DrillEnd};
use commit_plan::plan;
use dired_text::Memory;
use drill_tree::Group;
use edit_check::{Checked, changes_can_be_made_where_it_stands};
use find_listing::{find, read_find};
use std::alloc::Global;
use tree_core::Tree;

/// The counts of a drill that was checked, but for what it leaves.
pub fn counts(alloc: Global, groups: u32, checked: &Checked) -> Result<DrillCounts, Memory>
    requires few { groups ≤ 20000 }
    requires checked { IsCheckedDrill groups checked.now }
    ensures { IfOk result (λ counts.
        (t : FileTree) → IsDrillTree groups t → StandsFor checked.now t →
        counts ≡ counts_with groups t 0) }
{
    changes_can_be_made_where_it_stands(checked);
    let plan = plan(alloc, checked)?;
    let steps = small(plan.steps.as_slice().len())?;
    let edits = checked.counts().renamed;
    let replaced = checked.counts().replaced;
    let (entries, cycles) = entries_and_cycles(groups);
    Ok(DrillCounts {
        entries,
        edits,
        cycles,
        replaced,
        temporaries: steps - replaced - edits,
        steps,
        left: 0,
    })
}

// How many entries the groups have, and how many of them are cycles.
fn entries_and_cycles(groups: u32) -> (u32, u32)
    requires { groups ≤ 20000 }
    ensures entries { (numbers : Names → ℕ) → result.0 ≡ length (entries_of numbers groups) }
    ensures cycles { result.1 ≡ cycle_count groups }
{
    let mut entries = 0;
    let mut cycles = 0;
    for number in 0..groups {
        entries += entries_in(number);
        cycles += cycles_in(number);
    }
    (entries, cycles)
}

// How many entries a group has, with its directory.
fn entries_in(number: u32) -> u32
    ensures held { result ≡ 1 + length (held (group_of number)) }
    ensures few { result ≤ 8 }
{
    match Group::of(number) {
        Group::Chain => 4,
        Group::Cycle(len) => 1 + len,
        Group::Nested | Group::Replacing | Group::Swallowing => 3,
    }
}

// 1 for a group that is a cycle, and else 0.
fn cycles_in(number: u32) -> u32
    ensures cycles { result ≡ (if is_cycle (group_of number) then 1 else 0) }
    ensures few { result ≤ 1 }
{
    match Group::of(number) {
        Group::Cycle(_) => 1,
        Group::Chain | Group::Nested | Group::Replacing | Group::Swallowing => 0,
    }
}

/// How many entries a tree has but the root.
pub fn entries_left<T: Tree>(alloc: Global, tree: &mut T) -> Result<u32, DrillEnd>
    requires told { T.Tells }
    requires short { HasShortPaths (current_tree (T.history tree.old)) }
    ensures left { IfOk result (λ left. left ≡ entry_count (current_tree (T.history tree.old))) }
    ensures history { T.history tree.new ≡ T.history tree.old }
    ensures faults { T.faults tree.new ≡ faults_with (failed_in failed_look result)
        (T.faults tree.old) }
    ensures end { IfErr result IsOfLook }
{
    let Ok(everything) = read_find(alloc, "") else {
        return Err(DrillEnd::Memory);
    };
    let lines = find(alloc, tree, &everything, 0)?;
    Ok(small(lines.as_slice().len())?)
}

// A count as a number of 32 bits. More than that don't fit into memory.
fn small(count: usize) -> Result<u32, Memory>
    ensures { IfOk result (λ n. n ≡ count) }
{
    match u32::try_from(count) {
        Ok(small) => Ok(small),
        Err(_) => Err(Memory),
    }
}
