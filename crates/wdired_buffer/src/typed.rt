// What an edited line shows, and what it asks for.
ghost use Rattle.std.specs.Prelude.{◌≡◌, ◌==◌, Ok, IfOk, Some, option_map, take, drop};
ghost use Rattle.std.specs.Str.{bytes_eq};
ghost use Rattle.dired_text.specs.Answers.{IsOrMemory};
ghost use Rattle.wdired_buffer.specs.declared.faults.EditsFault.TheVariants.{Faulty as faulty_line, Memory as no_memory};
ghost use Rattle.listing_text.specs.Fields.{target_of};
ghost use Rattle.listing_text.specs.Listed.{is_link as is_link_kind};
ghost use Rattle.wdired_buffer.specs.Edits.{texts_in as texts_in_rest, path_typed, mode_typed, target_typed, typed_of, asked_of as asked_of_typed, changed, if_emptied, same_path};

use crate::headers::read_path;
use crate::splitting::split_at_most;
use crate::{EditsFault, LineCause};
use dired_text::{Memory, Path, Text, read_mode};
use listing_text::{arrow_place, read_target};
use std::alloc::Global;
use tree_core::{Edit, Kind, Shown};

/// What an edited line shows of its entry.
#[derive(Drop)]
pub struct Typed {
    /// None where the name is empty.
    pub path: Option<Path>,
    /// At most 0o7777.
    pub mode: u16,
    /// None where the entry is no link.
    pub target: Option<Text>,
}

/// What one line asks for.
#[derive(Drop)]
pub struct Asked {
    pub edit: Option<Edit>,
    /// The path of the entry, where its name is empty now.
    pub emptied: Option<Path>,
}

/// What the new line of an entry shows, in a directory's section.
///
/// # Errors
/// `BadName`, `BadMode` or `BadTarget`, the first that it has.
#[tactic(auto, unfolding(crate::specs::Edits::typed_of))]
pub fn read_typed(
    alloc: Global,
    number: u32,
    dir: &Path,
    name_at: u64,
    was: &Shown,
    after: &[u8],
) -> Result<Typed, EditsFault>
    ensures { IsOrMemory no_memory (typed_of number dir.now name_at was.now after.now) result }
{
    let (_, rest) = split_at_most(after, name_at as usize);
    let (name, target) = texts_in(was.kind, rest);
    let path = typed_path(alloc, dir, name)?.ok_or(faulty(number, LineCause::BadName))?;
    let mode = typed_mode(was, letters_in(after)).ok_or(faulty(number, LineCause::BadMode))?;
    let target = typed_target(alloc, was.kind, target)?.ok_or(faulty(
        number,
        LineCause::BadTarget,
    ))?;
    Ok(Typed { path, mode, target })
}

/// The refusal of a line.
pub fn faulty(line: u32, cause: LineCause) -> EditsFault
    ensures { result ≡ faulty_line line cause }
{
    EditsFault::Faulty { line, cause }
}

// Where the mode letters of a line stand.
fn letters_in(text: &[u8]) -> &[u8]
    ensures { result.now ≡ take 9 (drop 3 text.now) }
{
    let (_, behind_kind) = split_at_most(text, 3);
    split_at_most(behind_kind, 9).0
}

// The texts of name and target in what stands behind the date. Of a link without ` -> ` all is the text of the name.
#[tactic(auto, unfolding(crate::specs::Edits::texts_in))]
fn texts_in(kind: Kind, rest: &[u8]) -> (&[u8], Option<&[u8]>)
    ensures { (result.0.now, option_map (λ t. t.now) result.1) ≡ texts_in_rest kind rest.now }
{
    match kind {
        Kind::File | Kind::Dir => (rest, None),
        Kind::Link => match arrow_place(rest) {
            Some(place) => (&rest[..place], Some(&rest[place + 4..])),
            None => (rest, None),
        },
    }
}

// The path that a name's text names, if it isn't empty; or None where it names none.
#[tactic(auto, unfolding(crate::specs::Edits::path_typed))]
fn typed_path(alloc: Global, dir: &Path, name: &[u8]) -> Result<Option<Option<Path>>, Memory>
    ensures { IfOk result (λ path. path ≡ path_typed dir.now name.now) }
{
    if name.is_empty() {
        return Ok(Some(None));
    }
    Ok(read_path(alloc, dir, name)?.map(Some))
}

// The mode that letters show. A link keeps its own.
#[tactic(auto, unfolding(crate::specs::Edits::mode_typed))]
fn typed_mode(was: &Shown, letters: &[u8]) -> Option<u16>
    ensures { result ≡ mode_typed was.now letters.now }
{
    let mode = read_mode(letters)?;
    if is_link(was.kind) && mode != was.mode {
        return None;
    }
    Some(mode)
}

fn is_link(kind: Kind) -> bool
    ensures { result ≡ is_link_kind kind }
{
    match kind {
        Kind::Link => true,
        Kind::File | Kind::Dir => false,
    }
}

// The target, which a link has; or None where the text is none.
#[tactic(auto, unfolding(crate::specs::Edits::target_typed))]
fn typed_target(
    alloc: Global,
    kind: Kind,
    text: Option<&[u8]>,
) -> Result<Option<Option<Text>>, Memory>
    ensures { IfOk result (λ target. target ≡
        target_typed kind (option_map (λ t. t.now) text.entry)) }
{
    match kind {
        Kind::File | Kind::Dir => Ok(Some(None)),
        Kind::Link => match text {
            Some(text) => link_target(alloc, text),
            None => Ok(None),
        },
    }
}

// The target of a link; or None where the text is none.
fn link_target(alloc: Global, text: &[u8]) -> Result<Option<Option<Text>>, Memory>
    ensures { IfOk result (λ target. target ≡ option_map Some (target_of text.now)) }
{
    match read_target(alloc, text) {
        Ok(target) => Ok(target.map(Some)),
        Err(_) => Err(Memory),
    }
}

/// What a line of this number asks for, whose entry showed one thing and shows another.
#[tactic(auto, unfolding(crate::specs::Edits::asked_of))]
pub fn asked_of(number: u32, source: &Path, was: &Shown, typed: Typed) -> Result<Asked, Memory>
    ensures { IfOk result (λ asked. asked ≡ asked_of_typed number source.now was.now typed) }
{
    let emptied = emptied_name(source, &typed.path)?;
    let to = other_path(source, typed.path);
    let target = other_text(&was.target, typed.target);
    let mode = other_mode(was.mode, typed.mode);
    if to.is_none() && target.is_none() && mode.is_none() {
        return Ok(Asked {
            edit: None,
            emptied,
        });
    }
    Ok(Asked {
        edit: Some(Edit {
            source: source.copy()?,
            was: copy_of(was)?,
            to,
            target,
            mode,
            line: number,
        }),
        emptied,
    })
}

// The source, where no path is shown.
fn emptied_name(source: &Path, path: &Option<Path>) -> Result<Option<Path>, Memory>
    ensures { IfOk result (λ emptied. emptied ≡ if_emptied source.now path.now) }
{
    match path {
        Some(_) => Ok(None),
        None => Ok(Some(source.copy()?)),
    }
}

// A path that is another one than the source.
fn other_path(source: &Path, path: Option<Path>) -> Option<Path>
    ensures { result ≡ changed same_path source.now path }
{
    match path {
        Some(path) if path != *source => Some(path),
        _ => None,
    }
}

// A text that is another one than before.
fn other_text(old: &Text, text: Option<Text>) -> Option<Text>
    ensures { result ≡ changed bytes_eq old.now text }
{
    match text {
        Some(text) if text != *old => Some(text),
        _ => None,
    }
}

// A mode that is another one than before.
fn other_mode(old: u16, mode: u16) -> Option<u16>
    ensures { result ≡ changed ◌==◌ old (Some mode) }
{
    if mode == old { None } else { Some(mode) }
}

// What a line shows, in memory of its own.
fn copy_of(was: &Shown) -> Result<Shown, Memory>
    ensures { IfOk result (λ shown. shown ≡ was.now) }
{
    Ok(Shown {
        kind: was.kind,
        mode: was.mode,
        target: was.target.copy()?,
    })
}
