// What was read besides a journal.
ghost use Rattle.std.specs.Prelude.{◌≡◌, ◌++◌, IfOk, length, map};
ghost use Rattle.commit_recover.specs.Items.{AreItems, is_dir_kind, is_of, items_by, other_items, pairs, placed};
ghost use Rattle.commit_steps.specs.Staging.{staged};

use dired_text::Memory;
use recovery_calls::Item;
use recovery_start::Leftovers;
use staging_names::StagedName;
use std::alloc::Global;
use tree_core::Kind;

// Of what was read besides a journal, the entries or the marker.
#[derive(Clone, Copy)]
pub(crate) enum Part {
    Entries,
    Marker,
}

/// What was read besides a journal: the entries in the order of their names, and then the marker.
pub(crate) fn items_of(alloc: Global, left: &Leftovers) -> Result<Vec<Item>, Memory>
    requires named { length left.now.found.items ≡ length left.now.names.items }
    requires paths { left.now.paths.items ≡ map staged left.now.names.items }
    ensures { IfOk result (λ items. AreItems (other_items left.now) items.items) }
{
    let mut items = Vec::new(alloc);
    push_those(&mut items, left, Part::Entries)?;
    push_those(&mut items, left, Part::Marker)?;
    Ok(items)
}

fn push_those(items: &mut Vec<Item>, left: &Leftovers, part: Part) -> Result<(), Memory>
    requires named { length left.now.found.items ≡ length left.now.names.items }
    requires paths { left.now.paths.items ≡ map staged left.now.names.items }
    ensures { IfOk result (λ _. pairs items.new.items
        ≡ pairs items.old.items ++ placed (items_by (is_of part) left.now.names.items
        left.now.found.items)) }
{
    for k in 0..left.found.len() {
        let one = left.found[k];
        if is_wanted(part, one.name) {
            items.push(Item {
                path: left.paths[k].copy()?,
                is_dir: is_dir(one.kind),
            })?;
        }
    }
    Ok(())
}

fn is_wanted(part: Part, name: StagedName) -> bool
    ensures { result ≡ is_of part name }
{
    match part {
        Part::Entries => matches!(name, StagedName::Entry(_)),
        Part::Marker => matches!(name, StagedName::Marker(_)),
    }
}

fn is_dir(kind: Option<Kind>) -> bool
    ensures { result ≡ is_dir_kind kind }
{
    matches!(kind, Some(Kind::Dir))
}
