// A file's line, as it is read.
ghost use Rattle.std.specs.Prelude.{◌≡◌, ◌⊎◌, ◌-◌, ◌+◌, length, ◌≤◌, IfSome, Ok};
ghost use Rattle.std.specs.Result.{result_map_both};
ghost use Rattle.dired_text.specs.Answers.{IsOrMemory};
ghost use Rattle.dired_text.specs.Escape.{unescaped};
ghost use Rattle.listing_text.specs.declared.faults.LineFault.TheVariants.{Bad as bad_field, Memory as memory};
ghost use Rattle.listing_text.specs.declared.faults.Field.TheVariants as field_of;
ghost use Rattle.listing_text.specs.Fields.{kind_in as kind_in_text, number_in as number_in_text, word_in as word_in_text, date_in as date_in_text, if_read, plain_of, name_of, target_of};
ghost use Rattle.listing_text.specs.Numbers.{most_links, most_size};
ghost use Rattle.listing_text.specs.Reading.{line_of, front_of, seen, gapped, one, some, spaced, names_in, link_names, name_at};

use crate::fields::{
    arrow_place, behind_space, date_in, kind_in, mark_in, mode_in, number_in, space_len, word_in,
};
use crate::{Field, Line, LineFault};
use dired_text::{EscapeError, Text, unescape};
use std::alloc::Global;
use std::str;
use tree_core::Kind;

/// The fields of a file's line before the name.
#[derive(Clone, Copy, Debug)]
pub struct Head<'a> {
    pub mark: u8,
    pub kind: Kind,
    /// At most 0o7777; 0o777 for a link.
    pub mode: u16,
    /// The count of hard links.
    pub links: u32,
    pub owner: &'a str,
    pub group: &'a str,
    /// In bytes.
    pub size: u64,
    /// Minutes from 1970-01-01 00:00 UTC.
    pub minute: i64,
    /// What stands behind the date.
    pub rest: &'a [u8],
}

/// The mark and the line that a file's line shows. The text is given without its newline.
///
/// One or more spaces stand before links, owner, group and size, and exactly one elsewhere. Links and size are decimals
/// without a leading zero, of at most 32 and 64 bits. The date is a real one of the years 1 to 9998. A link's mode is
/// `rwxrwxrwx`, and its name ends before the first ` -> ` behind the date. Name and target are UTF-8 and are given
/// unescaped; the target has 1 to 4,095 bytes.
///
/// # Errors
/// `Bad` names the first bad field from the left, at the place where it begins behind its spaces. A missing space, and
/// one too many, is a fault of the field behind. Of a link without ` -> ` the field is `Target`, at the text's end.
#[tactic(auto, unfolding(crate::specs::Reading::line_of))]
pub fn read_line(alloc: Global, text: &[u8]) -> Result<(u8, Line), LineFault>
    ensures { IsOrMemory memory (line_of text.now) result }
{
    let head = read_head(text)?;
    let rest = behind_space(head.rest).ok_or(bad(Field::Name, text.len(), head.rest))?;
    let (name, target) = read_names(alloc, head.kind, text.len(), rest)?;
    Ok((
        head.mark,
        Line {
            kind: head.kind,
            mode: head.mode,
            links: head.links,
            owner: copy_of(alloc, head.owner)?,
            group: copy_of(alloc, head.group)?,
            size: head.size,
            minute: head.minute,
            name,
            target,
        },
    ))
}

// A field that is bad where the rest of a text of so many bytes begins.
fn bad(field: Field, bytes: usize, rest: &[u8]) -> LineFault
    ensures { result ≡ bad_field field (bytes - length rest.now) }
{
    LineFault::Bad {
        field,
        place: bytes.saturating_sub(rest.len()) as u64,
    }
}

/// The fields of a file's line before the name.
#[tactic(auto, unfolding(crate::specs::Reading::front_of))]
pub fn read_head(text: &[u8]) -> Result<Head<'_>, LineFault>
    ensures { result_map_both seen (λ e. e) result ≡ front_of text.now }
{
    let bytes = text.len();
    let (mark, rest) = mark_in(text).ok_or(bad(Field::Mark, bytes, text))?;
    let (kind, rest) = kind_at(bytes, rest)?;
    let (mode, rest) = mode_in(kind, rest).ok_or(bad(Field::Mode, bytes, rest))?;
    let (links, rest) = links_at(bytes, rest)?;
    let (owner, rest) = word_at(Field::Owner, bytes, rest)?;
    let (group, rest) = word_at(Field::Group, bytes, rest)?;
    let (size, rest) = size_at(bytes, rest)?;
    let (minute, rest) = date_at(bytes, rest)?;
    Ok(Head {
        mark,
        kind,
        mode,
        links,
        owner,
        group,
        size,
        minute,
        rest,
    })
}

// The kind behind one space.
#[tactic(auto, unfolding(crate::specs::Reading::spaced))]
fn kind_at(bytes: usize, text: &[u8]) -> Result<(Kind, &[u8]), LineFault>
    ensures { result_map_both (λ t. (t.0, t.1.now)) (λ e. e) result ≡
        spaced field_of.Kind one kind_in_text bytes text.now }
{
    let rest = behind_one(Field::Kind, bytes, text)?;
    kind_in(rest).ok_or(bad(Field::Kind, bytes, rest))
}

// The count of links behind its spaces.
#[tactic(auto, unfolding(crate::specs::Reading::spaced))]
fn links_at(bytes: usize, text: &[u8]) -> Result<(u32, &[u8]), LineFault>
    ensures { result_map_both (λ t. (t.0, t.1.now)) (λ e. e) result ≡
        spaced field_of.Links some (number_in_text most_links) bytes text.now }
{
    let rest = behind_some(Field::Links, bytes, text)?;
    let (links, later) = number_in(4_294_967_295, rest).ok_or(bad(Field::Links, bytes, rest))?;
    Ok((links as u32, later))
}

// The size behind its spaces.
#[tactic(auto, unfolding(crate::specs::Reading::spaced))]
fn size_at(bytes: usize, text: &[u8]) -> Result<(u64, &[u8]), LineFault>
    ensures { result_map_both (λ t. (t.0, t.1.now)) (λ e. e) result ≡
        spaced field_of.Size some (number_in_text most_size) bytes text.now }
{
    let rest = behind_some(Field::Size, bytes, text)?;
    number_in(18_446_744_073_709_551_615, rest).ok_or(bad(Field::Size, bytes, rest))
}

// Owner or group behind its spaces.
#[tactic(auto, unfolding(crate::specs::Reading::spaced))]
fn word_at(field: Field, bytes: usize, text: &[u8]) -> Result<(&str, &[u8]), LineFault>
    ensures { result_map_both (λ t. (t.0.now, t.1.now)) (λ e. e) result ≡
        spaced field some word_in_text bytes text.now }
{
    let rest = behind_some(field, bytes, text)?;
    word_in(rest).ok_or(bad(field, bytes, rest))
}

// The date behind one space.
#[tactic(auto, unfolding(crate::specs::Reading::spaced))]
fn date_at(bytes: usize, text: &[u8]) -> Result<(i64, &[u8]), LineFault>
    ensures { result_map_both (λ t. (t.0, t.1.now)) (λ e. e) result ≡
        spaced field_of.Date one date_in_text bytes text.now }
{
    let rest = behind_one(Field::Date, bytes, text)?;
    date_in(rest).ok_or(bad(Field::Date, bytes, rest))
}

// What stands behind exactly one space, before a field.
#[tactic(auto, unfolding(crate::specs::Reading::gapped))]
fn behind_one(field: Field, bytes: usize, text: &[u8]) -> Result<&[u8], LineFault>
    ensures { result_map_both (λ r. r.now) (λ e. e) result ≡ gapped field one bytes text.now }
{
    let count = space_len(text);
    let rest = &text[count..];
    if count == 1 {
        Ok(rest)
    } else {
        Err(bad(field, bytes, rest))
    }
}

// What stands behind one or more spaces, before a field.
#[tactic(auto, unfolding(crate::specs::Reading::gapped))]
fn behind_some(field: Field, bytes: usize, text: &[u8]) -> Result<&[u8], LineFault>
    ensures { result_map_both (λ r. r.now) (λ e. e) result ≡ gapped field some bytes text.now }
{
    let count = space_len(text);
    let rest = &text[count..];
    if 1 <= count {
        Ok(rest)
    } else {
        Err(bad(field, bytes, rest))
    }
}

// The name, and the target of a link.
#[tactic(auto, unfolding(crate::specs::Reading::names_in))]
fn read_names(
    alloc: Global,
    kind: Kind,
    bytes: usize,
    rest: &[u8],
) -> Result<(Text, Text), LineFault>
    ensures { IsOrMemory memory (names_in kind bytes rest.now) result }
{
    match kind {
        Kind::Link => read_link_names(alloc, bytes, rest, arrow_place(rest)),
        Kind::File | Kind::Dir => {
            let name = read_name(alloc, bytes, rest, rest)?;
            Ok((name, Text::from_string(String::new(alloc))))
        }
    }
}

// The name of a link, which ends before this place, and its target.
#[tactic(auto, unfolding(crate::specs::Reading::link_names))]
fn read_link_names(
    alloc: Global,
    bytes: usize,
    rest: &[u8],
    place: Option<usize>,
) -> Result<(Text, Text), LineFault>
    requires { IfSome place (λ n. n + 4 ≤ length rest.now) }
    ensures { IsOrMemory memory (link_names bytes rest.now place) result }
{
    let Some(place) = place else {
        return Err(bad(Field::Target, bytes, &[]));
    };
    let name = read_name(alloc, bytes, rest, &rest[..place])?;
    let shown = &rest[place + 4..];
    match read_target(alloc, shown)? {
        Some(target) => Ok((name, target)),
        None => Err(bad(Field::Target, bytes, shown)),
    }
}

/// The name that begins where the rest of a text begins.
#[tactic(auto, unfolding(crate::specs::Fields::name_of))]
pub fn read_name(alloc: Global, bytes: usize, rest: &[u8], shown: &[u8]) -> Result<Text, LineFault>
    ensures { IsOrMemory memory (name_at bytes rest.now shown.now) result }
{
    match read_plain_text(alloc, shown)? {
        Some(name) => {
            if name.as_str().is_empty() {
                Err(bad(Field::Name, bytes, rest))
            } else {
                Ok(name)
            }
        }
        None => Err(bad(Field::Name, bytes, rest)),
    }
}

/// The target of a link: 1 to 4,095 bytes.
#[tactic(auto, unfolding(crate::specs::Fields::target_of))]
pub fn read_target(alloc: Global, shown: &[u8]) -> Result<Option<Text>, LineFault>
    ensures { IsOrMemory memory (Ok (target_of shown.now)) result }
{
    match read_plain_text(alloc, shown)? {
        Some(target) => {
            let len = target.as_str().len();
            if 1 <= len && len <= 4095 {
                Ok(Some(target))
            } else {
                Ok(None)
            }
        }
        None => Ok(None),
    }
}

// What an escaped text stands for, where it is one and is UTF-8.
#[tactic(auto, unfolding(crate::specs::Fields::plain_of))]
fn read_plain_text(alloc: Global, shown: &[u8]) -> Result<Option<Text>, LineFault>
    ensures { IsOrMemory memory (Ok (plain_of shown.now)) result }
{
    match str::from_utf8(shown) {
        Ok(text) => read_escaped(alloc, text),
        Err(_) => Ok(None),
    }
}

// What an escaped text stands for, where it is one.
fn read_escaped(alloc: Global, shown: &str) -> Result<Option<Text>, LineFault>
    ensures { IsOrMemory memory (Ok (if_read (unescaped shown.now))) result }
{
    match unescape(alloc, shown) {
        Ok(text) => Ok(Some(text)),
        Err(EscapeError::BadEscape(_)) => Ok(None),
        Err(EscapeError::Memory) => Err(LineFault::Memory),
    }
}

// Copies a text. Only memory can be missing.
fn copy_of(alloc: Global, text: &str) -> Result<Text, LineFault>
    ensures { IsOrMemory memory (Ok text.now) result }
{
    match Text::copy_of(alloc, text) {
        Ok(text) => Ok(text),
        Err(_) => Err(LineFault::Memory),
    }
}
