// The columns of a listing.
ghost use Rattle.std.specs.Prelude.{◌≡◌, ◌++◌, OnOk, max, min, length, decimal};
ghost use Rattle.listing_text.specs.Listed.{spaces, at_right, at_left, columns_text, widths_of};

use crate::numbers::decimal_len;
use crate::{Line, Widths};
use dired_text::Memory;
use std::alloc::Global;

// The width of each column of these lines: the width of the widest, at most 255.
pub(crate) fn widths(lines: &[(u8, Line)]) -> Widths
    ensures { result ≡ widths_of lines.now }
{
    let mut widths = Widths {
        links: 0,
        owner: 0,
        group: 0,
        size: 0,
    };
    for (_, line) in lines {
        widths.links = wider(widths.links, decimal_len(u64::from(line.links)));
        widths.owner = wider(widths.owner, line.owner.as_str().len());
        widths.group = wider(widths.group, line.group.as_str().len());
        widths.size = wider(widths.size, decimal_len(line.size));
    }
    widths
}

// The wider of a width and a length, which counts as 255 at most.
fn wider(width: u8, len: usize) -> u8
    ensures { result ≡ max width (min len 255) }
{
    width.max(len.min(255) as u8)
}

// Pushes links, owner, group and size in their columns, each with a space in front.
#[tactic(auto, unfolding(crate::specs::Listed::columns_text))]
pub(crate) fn push_columns(
    alloc: Global,
    text: &mut Vec<u8>,
    line: &Line,
    widths: &Widths,
) -> Result<(), Memory>
    ensures { OnOk result (text.new.items ≡ text.old.items ++ columns_text line.now widths.now) }
{
    text.push(b' ')?;
    push_right(
        text,
        widths.links,
        format!(in alloc; "{}", line.links)?.as_bytes(),
    )?;
    text.push(b' ')?;
    push_left(text, widths.owner, line.owner.as_str().as_bytes())?;
    text.push(b' ')?;
    push_left(text, widths.group, line.group.as_str().as_bytes())?;
    text.push(b' ')?;
    push_right(
        text,
        widths.size,
        format!(in alloc; "{}", line.size)?.as_bytes(),
    )
}

// Pushes a field at the right of its column.
fn push_right(text: &mut Vec<u8>, width: u8, field: &[u8]) -> Result<(), Memory>
    ensures { OnOk result (text.new.items ≡ text.old.items ++ at_right width field.now) }
{
    push_spaces(text, usize::from(width).saturating_sub(field.len()))?;
    text.extend_from_slice(field)?;
    Ok(())
}

// Pushes a field at the left of its column.
fn push_left(text: &mut Vec<u8>, width: u8, field: &[u8]) -> Result<(), Memory>
    ensures { OnOk result (text.new.items ≡ text.old.items ++ at_left width field.now) }
{
    text.extend_from_slice(field)?;
    push_spaces(text, usize::from(width).saturating_sub(field.len()))
}

fn push_spaces(text: &mut Vec<u8>, count: usize) -> Result<(), Memory>
    ensures { OnOk result (text.new.items ≡ text.old.items ++ spaces count) }
{
    for _ in 0..count {
        text.push(b' ')?;
    }
    Ok(())
}
