// An entry of a tree, as the table has entries.
ghost use Rattle.std.specs.Prelude.{◌≡◌, ◌++◌, IfOk, OnOk};
ghost use Rattle.std.specs.String.{string_bytes};
ghost use Rattle.case_tables.specs.Entries.{entry_row, row_head, row_tail};

use crate::printing::push_field;
use dired_text::{Memory, Path};
use std::alloc::Global;
use tree_core::{Kind, Meta};

/// Prints the entry at a path with these fields, and with these bytes where it is a file.
pub fn push_row(text: &mut String, path: &Path, meta: &Meta, bytes: &[u8]) -> Result<(), Memory>
    ensures { OnOk result (
        string_bytes text.new ≡ string_bytes text.old ++ entry_row path.now meta.now bytes.now) }
{
    let shown = path.text()?;
    let head = head_of(*text.allocator(), meta)?;
    text.push_str(head.as_str())?;
    push_field(text, shown.as_str().as_bytes())?;
    push_tail(text, meta, bytes)?;
    text.push_str("\n")?;
    Ok(())
}

// What stands before the path.
fn head_of(alloc: Global, meta: &Meta) -> Result<String, Memory>
    ensures { IfOk result (λ t. string_bytes t ≡ row_head meta.now.kind meta.now) }
{
    let (number, mode, time) = (meta.number, meta.mode, meta.mtime);
    Ok(match meta.kind {
        Kind::Dir => format!(in alloc; "dir {mode:o} {time} ")?,
        Kind::Link => format!(in alloc; "link {time} ")?,
        Kind::File => format!(in alloc; "file {number} {mode:o} {time} ")?,
    })
}

// Prints what stands behind the path: a link's target, a file's bytes.
fn push_tail(text: &mut String, meta: &Meta, bytes: &[u8]) -> Result<(), Memory>
    ensures { OnOk result (
        string_bytes text.new ≡
        string_bytes text.old ++ row_tail meta.now.kind meta.now bytes.now) }
{
    match meta.kind {
        Kind::Dir => {}
        Kind::Link => {
            text.push_str(" ")?;
            push_field(text, meta.target.as_str().as_bytes())?;
        }
        Kind::File => {
            text.push_str(" ")?;
            push_field(text, bytes)?;
        }
    }
    Ok(())
}
