// Reading a buffer.
ghost use Rattle.std.specs.Prelude.{◌≡◌, ◌⊎◌, ◌<◌, ◌≤◌, ◌+◌, [], length, Ok, Err, IfOk, IfErr, IfSome, vec_len};
ghost use Rattle.dired_text.specs.Answers.{IsOrMemory};
ghost use Rattle.listing_text.specs.declared.faults.Field.TheVariants as field_of;
ghost use Rattle.wdired_buffer.specs.declared.faults.BufferFault.TheVariants.{Bad as bad_line, Memory as memory};
ghost use Rattle.wdired_buffer.specs.declared.faults.BufferCause.TheVariants as cause_of;
ghost use Rattle.wdired_buffer.specs.Buffer.{buffer_of, max_lines, line_of, end_of, entry_of, header_of, shown, link_shown, fault_at, or_bad};
ghost use Rattle.wdired_buffer.specs.Headers.{named};

use crate::due::Due;
use crate::headers::{header_in, is_total, read_dir, read_path};
use crate::splitting::{count_lines, split_line};
use crate::{BufferCause, BufferFault, BufferLine};
use dired_text::{Bytes, Path, Text};
use listing_text::{Field, LineFault, arrow_place, behind_space, read_head, read_target};
use std::alloc::Global;
use tree_core::{Kind, Shown};

// The first line.
const FORMAT: &[u8] = b"dired 1";

// The most lines that a buffer may have.
const MAX_LINES: usize = 400_000;

/// The lines of a buffer. The first is `dired 1`; one or more sections follow, with an empty line between two. A section
/// is its header, its total, and a line for each file. A newline may be missing behind the last line.
///
/// # Errors
/// `TooManyLines` where there are more than 400,000 lines, before all else. Otherwise `Bad` with the first line that
/// isn't of the form, which is the one behind the last where the text ends too early.
pub fn read_buffer(alloc: Global, bytes: &[u8]) -> Result<Vec<BufferLine>, BufferFault>
    requires { length bytes.now < 4294967295 }
    ensures lines { IfOk result (λ v. buffer_of bytes.now ≡ Ok v.items) }
    ensures refused { IfErr result (λ e. (e ≡ memory) ⊎ (buffer_of bytes.now ≡ Err e)) }
    ensures few { IfOk result (λ v. vec_len v ≤ max_lines) }
{
    let count = count_lines(bytes);
    if count > MAX_LINES {
        return Err(BufferFault::TooManyLines(count as u64));
    }
    let mut all = Vec::new(alloc);
    let mut due = Due::First;
    let mut rest = bytes;
    let mut number = 1;
    while let Some((text, behind)) = split_line(rest) {
        let (line, next) = read_due(alloc, number, due, text)?;
        all.push(line)?;
        due = next;
        number += 1;
        rest = behind;
    }
    check_end(number, &due)?;
    Ok(all)
}

// The line of this number that a text is, and what is due behind it.
#[tactic(auto, unfolding(crate::specs::Buffer::line_of))]
fn read_due(
    alloc: Global,
    number: u32,
    due: Due,
    text: &[u8],
) -> Result<(BufferLine, Due), BufferFault>
    ensures { IsOrMemory memory (line_of number due text.now) result }
{
    match due {
        Due::First if text == FORMAT => Ok((fixed(alloc, text)?, Due::Header)),
        Due::First => Err(bad(number, BufferCause::FirstLine)),
        Due::Header => read_header(alloc, number, text),
        Due::Total(dir) if is_total(text) => Ok((fixed(alloc, text)?, Due::Rows(dir))),
        Due::Total(_) => Err(bad(number, BufferCause::Total)),
        Due::Rows(_) if text.is_empty() => Ok((fixed(alloc, text)?, Due::Header)),
        Due::Rows(dir) => Ok((read_entry(alloc, number, &dir, text)?, Due::Rows(dir))),
        Due::Gap if text.is_empty() => Ok((fixed(alloc, text)?, Due::Header)),
        Due::Gap => Err(bad(number, BufferCause::Header)),
    }
}

// Whether a buffer may end where this is due, at the line of this number.
#[tactic(auto, unfolding(crate::specs::Buffer::end_of))]
fn check_end(number: u32, due: &Due) -> Result<(), BufferFault>
    ensures ok { IfOk result (λ _. end_of number due.now ≡ Ok []) }
    ensures err { IfErr result (λ e. end_of number due.now ≡ Err e) }
{
    match due {
        Due::First => Err(bad(number, BufferCause::FirstLine)),
        Due::Header => Err(bad(number, BufferCause::Header)),
        Due::Total(_) => Err(bad(number, BufferCause::Total)),
        Due::Rows(_) | Due::Gap => Ok(()),
    }
}

// A line that is bad.
fn bad(line: u32, cause: BufferCause) -> BufferFault
    ensures { result ≡ bad_line line cause }
{
    BufferFault::Bad { line, cause }
}

// A line that no edit changes.
fn fixed(alloc: Global, text: &[u8]) -> Result<BufferLine, BufferFault>
    ensures { IsOrMemory memory (Ok (BufferLine.Fixed text.now)) result }
{
    Ok(BufferLine::Fixed(Bytes::copy_of(alloc, text)?))
}

// The header that a text is, and what is due behind it.
#[tactic(auto, unfolding(crate::specs::Buffer::header_of))]
fn read_header(alloc: Global, number: u32, text: &[u8]) -> Result<(BufferLine, Due), BufferFault>
    ensures { IsOrMemory memory (header_of number text.now) result }
{
    let (hidden, path) = header_in(text).ok_or(bad(number, BufferCause::Header))?;
    let dir = read_dir(alloc, path)?.ok_or(bad(number, BufferCause::Header))?;
    let due = if hidden {
        Due::Gap
    } else {
        Due::Total(dir.copy()?)
    };
    Ok((
        BufferLine::Header {
            text: Bytes::copy_of(alloc, text)?,
            dir,
        },
        due,
    ))
}

// The file's line that a text is, in a directory's section.
#[tactic(auto, unfolding(crate::specs::Buffer::entry_of))]
fn read_entry(
    alloc: Global,
    number: u32,
    dir: &Path,
    text: &[u8],
) -> Result<BufferLine, BufferFault>
    ensures { IsOrMemory memory (entry_of number dir.now text.now) result }
{
    let head = read_head(text).map_err(|fault| line_fault(number, fault))?;
    let rest = behind_space(head.rest).ok_or(bad(number, BufferCause::Line(Field::Name)))?;
    let (source, target) = read_shown(alloc, number, dir, head.kind, rest)?;
    Ok(BufferLine::Entry {
        text: Bytes::copy_of(alloc, text)?,
        name_at: text.len().saturating_sub(rest.len()) as u64,
        source,
        was: Shown {
            kind: head.kind,
            mode: head.mode,
            target,
        },
    })
}

// The fault of a file's line.
fn line_fault(number: u32, fault: LineFault) -> BufferFault
    ensures { result ≡ fault_at number fault }
{
    match fault {
        LineFault::Bad { field, .. } => bad(number, BufferCause::Line(field)),
        LineFault::Memory => BufferFault::Memory,
    }
}

// The path that is shown in a directory's section, and the target of a link.
#[tactic(auto, unfolding(crate::specs::Buffer::shown))]
fn read_shown(
    alloc: Global,
    number: u32,
    dir: &Path,
    kind: Kind,
    rest: &[u8],
) -> Result<(Path, Text), BufferFault>
    ensures { IsOrMemory memory (shown number dir.now kind rest.now) result }
{
    match kind {
        Kind::Link => read_link(alloc, number, dir, rest, arrow_place(rest)),
        Kind::File | Kind::Dir => {
            let path = read_source(alloc, number, dir, rest)?;
            Ok((path, Text::from_string(String::new(alloc))))
        }
    }
}

// The path of a link, whose name ends before this place, and its target behind ` -> `.
#[tactic(auto, unfolding(crate::specs::Buffer::link_shown))]
fn read_link(
    alloc: Global,
    number: u32,
    dir: &Path,
    rest: &[u8],
    place: Option<usize>,
) -> Result<(Path, Text), BufferFault>
    requires { IfSome place (λ n. n + 4 ≤ length rest.now) }
    ensures { IsOrMemory memory (link_shown number dir.now rest.now place) result }
{
    let Some(place) = place else {
        return Err(bad(number, BufferCause::Line(Field::Target)));
    };
    let path = read_source(alloc, number, dir, &rest[..place])?;
    match read_target(alloc, &rest[place + 4..]) {
        Ok(Some(target)) => Ok((path, target)),
        Ok(None) => Err(bad(number, BufferCause::Line(Field::Target))),
        Err(_) => Err(BufferFault::Memory),
    }
}

// The path that a name names in a directory's section.
fn read_source(alloc: Global, number: u32, dir: &Path, name: &[u8]) -> Result<Path, BufferFault>
    ensures { IsOrMemory memory
        (or_bad number (cause_of.Line field_of.Name) (named dir.now name.now)) result }
{
    read_path(alloc, dir, name)?.ok_or(bad(number, BufferCause::Line(Field::Name)))
}
