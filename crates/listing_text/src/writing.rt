// Lines and sections of a listing, as they are written.
ghost use Rattle.std.specs.Prelude.{◌≡◌, ◌++◌, IfOk, OnOk, ◌∷◌, [], ◌%◌};
ghost use Rattle.dired_text.specs.Modes.{mode_letters};
ghost use Rattle.dired_text.specs.Escape.{escaped};
ghost use Rattle.listing_text.specs.Listed.{kind_letter as kind_letter_of, is_link as is_link_kind, names_text, start_text, line_text_of, dir_text, header_text_of, total_text_of, lines_text, section_text_of};

use crate::columns::{push_columns, widths};
use crate::dates::push_minute;
use crate::{Line, Widths};
use dired_text::{Bytes, Memory, Path, escape, mode_text};
use std::alloc::Global;
use tree_core::Kind;

/// A file's line without its newline: the mark (a space where there is none), a space, the kind (`-`, `d` or `l`) and
/// the letters of the mode, then, each behind a space, links, owner, group, size, the date as `YYYY-MM-DD HH:MM` in UTC,
/// and the name. Links and size stand at the right of their columns, owner and group at the left. Behind the name of a
/// link stand ` -> ` and its target. Name and target are escaped, in the name of a link `>` as well. A minute outside of
/// the years 1 to 9998 is shown as the first or the last of them, and of the mode only the twelve bits are shown that
/// it may have (POSIX, `ls`, "long format"; GNU coreutils manual, "long-iso").
pub fn line_text(alloc: Global, mark: u8, line: &Line, widths: &Widths) -> Result<Bytes, Memory>
    ensures { IfOk result (λ b. b ≡ line_text_of mark line.now widths.now) }
{
    let mut text = Vec::new(alloc);
    push_line(alloc, &mut text, mark, line, widths)?;
    Ok(Bytes::from_vec(text))
}

/// A section of a listing: its header, the line `  total N` with the number of its lines, and the lines, each behind its
/// mark. Columns are as wide as the widest among the lines, 255 bytes at most. Every line ends with a newline.
#[tactic(auto, unfolding(crate::specs::Listed::section_text_of))]
pub fn section_text(alloc: Global, dir: &Path, lines: &[(u8, Line)]) -> Result<Bytes, Memory>
    ensures { IfOk result (λ b. b ≡ section_text_of dir.now lines.now) }
{
    let mut text = Vec::new(alloc);
    push_header(alloc, &mut text, dir)?;
    text.push(b'\n')?;
    push_total(alloc, &mut text, lines.len())?;
    text.push(b'\n')?;
    push_lines(alloc, &mut text, lines, &widths(lines))?;
    Ok(Bytes::from_vec(text))
}

/// The header of a section without its newline: two spaces, the directory's path, escaped, and `:`. The root is `.`.
pub fn header_text(alloc: Global, dir: &Path) -> Result<Bytes, Memory>
    ensures { IfOk result (λ b. b ≡ header_text_of dir.now) }
{
    let mut text = Vec::new(alloc);
    push_header(alloc, &mut text, dir)?;
    Ok(Bytes::from_vec(text))
}

#[tactic(auto, unfolding(crate::specs::Listed::header_text_of))]
fn push_header(alloc: Global, text: &mut Vec<u8>, dir: &Path) -> Result<(), Memory>
    ensures { OnOk result (text.new.items ≡ text.old.items ++ header_text_of dir.now) }
{
    text.extend_from_slice(b"  ")?;
    push_dir(alloc, text, dir)?;
    text.push(b':')?;
    Ok(())
}

// Pushes a directory's path, escaped.
#[tactic(auto, unfolding(crate::specs::Listed::dir_text))]
fn push_dir(alloc: Global, text: &mut Vec<u8>, dir: &Path) -> Result<(), Memory>
    ensures { OnOk result (text.new.items ≡ text.old.items ++ dir_text dir.now) }
{
    if dir.names().is_empty() {
        text.push(b'.')?;
        return Ok(());
    }
    let path = dir.text()?;
    push_escaped(alloc, text, path.as_str(), false)
}

#[tactic(auto, unfolding(crate::specs::Listed::total_text_of))]
fn push_total(alloc: Global, text: &mut Vec<u8>, count: usize) -> Result<(), Memory>
    ensures { OnOk result (text.new.items ≡ text.old.items ++ total_text_of count) }
{
    let total = format!(in alloc; "  total {count}")?;
    text.extend_from_slice(total.as_bytes())?;
    Ok(())
}

// Pushes lines, each with its newline.
#[tactic(auto, unfolding(crate::specs::Listed::lines_text))]
fn push_lines(
    alloc: Global,
    text: &mut Vec<u8>,
    lines: &[(u8, Line)],
    widths: &Widths,
) -> Result<(), Memory>
    ensures { OnOk result (text.new.items ≡ text.old.items ++ lines_text widths.now lines.now) }
{
    for (mark, line) in lines {
        push_line(alloc, text, *mark, line, widths)?;
        text.push(b'\n')?;
    }
    Ok(())
}

#[tactic(auto, unfolding(crate::specs::Listed::line_text_of))]
fn push_line(
    alloc: Global,
    text: &mut Vec<u8>,
    mark: u8,
    line: &Line,
    widths: &Widths,
) -> Result<(), Memory>
    ensures { OnOk result (text.new.items ≡ text.old.items
        ++ line_text_of mark line.now widths.now) }
{
    push_start(text, mark, line)?;
    push_columns(alloc, text, line, widths)?;
    text.push(b' ')?;
    push_minute(text, line.minute)?;
    text.push(b' ')?;
    push_names(alloc, text, line)
}

// Pushes the mark, the kind and the letters of the mode.
#[tactic(auto, unfolding(crate::specs::Listed::start_text))]
fn push_start(text: &mut Vec<u8>, mark: u8, line: &Line) -> Result<(), Memory>
    ensures { OnOk result (text.new.items ≡ text.old.items ++ start_text mark line.now) }
{
    text.push(mark)?;
    text.push(b' ')?;
    text.push(kind_letter(line.kind))?;
    text.extend_from_slice(&mode_text(line.mode % 0o10000))?;
    Ok(())
}

// Pushes the name, and the target of a link.
#[tactic(auto, unfolding(crate::specs::Listed::names_text))]
fn push_names(alloc: Global, text: &mut Vec<u8>, line: &Line) -> Result<(), Memory>
    ensures { OnOk result (text.new.items ≡ text.old.items ++ names_text line.now) }
{
    push_escaped(alloc, text, line.name.as_str(), is_link(line.kind))?;
    if is_link(line.kind) {
        text.extend_from_slice(b" -> ")?;
        push_escaped(alloc, text, line.target.as_str(), false)?;
    }
    Ok(())
}

fn push_escaped(alloc: Global, text: &mut Vec<u8>, plain: &str, in_link: bool) -> Result<(), Memory>
    ensures { OnOk result (text.new.items ≡ text.old.items ++ escaped in_link plain.now) }
{
    let shown = escape(alloc, plain, in_link)?;
    text.extend_from_slice(shown.as_str().as_bytes())?;
    Ok(())
}

fn kind_letter(kind: Kind) -> u8
    ensures { result ≡ kind_letter_of kind }
{
    match kind {
        Kind::File => b'-',
        Kind::Dir => b'd',
        Kind::Link => b'l',
    }
}

pub(crate) fn is_link(kind: Kind) -> bool
    ensures { result ≡ is_link_kind kind }
{
    match kind {
        Kind::Link => true,
        Kind::File | Kind::Dir => false,
    }
}
