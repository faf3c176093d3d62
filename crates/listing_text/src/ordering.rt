// The order of the lines of a listing.
ghost use Rattle.std.specs.Prelude.{◌≡◌, IsPermutation, IsSorted};
ghost use Rattle.listing_text.specs.Order.{line_cmp, by_name as by_name_cmp, by_other_fields as by_other_fields_cmp, by_all_fields as by_all_fields_cmp, forward as forward_cmp, kind_place as kind_place_of};

use crate::{Line, Switches};
use std::cmp::Ordering;
use tree_core::Kind;

/// Sorts lines by the bytes of their names; with `by_size` the largest first, else with `by_time` the newest minute
/// first, and ties by name. Lines of one name stand by their other fields, in the order that [`Line`] has. `reverse`
/// turns the whole order round. Takes no memory.
pub fn order(lines: &mut Vec<Line>, switches: &Switches)
    ensures lines { IsPermutation lines.old.items lines.new.items }
    ensures sorted { IsSorted (line_cmp switches.now) lines.new.items }
{
    let switches = *switches;
    lines.sort_unstable_by(|a, b| compare(switches, a, b));
}

// How two lines compare in a listing with these switches.
fn compare(switches: Switches, a: &Line, b: &Line) -> Ordering
    ensures { result ≡ line_cmp switches a.now b.now }
{
    if switches.reverse {
        forward(switches, b, a)
    } else {
        forward(switches, a, b)
    }
}

// The same but for `reverse`.
fn forward(switches: Switches, a: &Line, b: &Line) -> Ordering
    ensures { result ≡ forward_cmp switches a.now b.now }
{
    if switches.by_size {
        b.size.cmp(&a.size).then(by_all_fields(a, b))
    } else if switches.by_time {
        b.minute.cmp(&a.minute).then(by_all_fields(a, b))
    } else {
        by_all_fields(a, b)
    }
}

// By name, and then by the other fields.
fn by_all_fields(a: &Line, b: &Line) -> Ordering
    ensures { result ≡ by_all_fields_cmp a.now b.now }
{
    a.name
        .as_str()
        .cmp(b.name.as_str())
        .then(by_other_fields(a, b))
}

// By all fields but the name, in their order.
fn by_other_fields(a: &Line, b: &Line) -> Ordering
    ensures { result ≡ by_other_fields_cmp a.now b.now }
{
    kind_place(a.kind)
        .cmp(&kind_place(b.kind))
        .then(a.mode.cmp(&b.mode))
        .then(a.links.cmp(&b.links))
        .then(a.owner.as_str().cmp(b.owner.as_str()))
        .then(a.group.as_str().cmp(b.group.as_str()))
        .then(a.size.cmp(&b.size))
        .then(a.minute.cmp(&b.minute))
        .then(a.target.as_str().cmp(b.target.as_str()))
}

fn kind_place(kind: Kind) -> u8
    ensures { result ≡ kind_place_of kind }
{
    match kind {
        Kind::File => 0,
        Kind::Dir => 1,
        Kind::Link => 2,
    }
}
