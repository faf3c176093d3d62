// The names of owners and groups. The standard library has no call for them, so the program `stat` is asked (GNU coreutils),
// once for each pair of numbers.
ghost use Rattle.std.specs.Prelude.{IfOk, IsTrue};
ghost use Rattle.tree_core.specs.Fields.{IsOwner};

use crate::children::owners_of;
use dired_text::{Memory, Name, Text};
use std::alloc::Global;
use std::collections::BTreeMap;
use std::fs::Metadata;
use std::os::unix::fs::MetadataExt;
use std::process::Processes;
use tree_core::LookEnd;

// The most bytes of a name that is shown.
const MAX_OWNER_BYTES: usize = 64;

/// An owner and a group as they are shown: by name, or by number where the host has no name that can be shown.
#[derive(Drop)]
pub struct Shown {
    pub owner: Text,
    pub group: Text,
    ghost owner_lawful: { IsOwner owner },
    ghost group_lawful: { IsOwner group },
}

impl Shown {
    fn copy(&self) -> Result<Self, Memory> {
        Ok(Shown {
            owner: self.owner.copy()?,
            group: self.group.copy()?,
        })
    }
}

/// The names that were asked for so far, by the numbers of owner and group.
#[derive(Drop)]
pub struct Owners {
    known: BTreeMap<(u32, u32), Shown>,
}

impl Owners {
    /// None so far.
    pub fn new(alloc: Global) -> Self {
        Owners {
            known: BTreeMap::new(alloc),
        }
    }

    /// The owner and the group of what was just found at a path. `stat` is started only for a pair of numbers that wasn't
    /// met before.
    pub fn names_of<R: Processes>(
        &mut self,
        rt: &R,
        alloc: Global,
        names: &[Name],
        data: &Metadata,
    ) -> Result<Shown, LookEnd> {
        let numbers = (data.uid(), data.gid());
        if let Some(shown) = self.known.get(&numbers) {
            return Ok(shown.copy()?);
        }
        let answer = owners_of(rt, alloc, names)?;
        let shown = read_answer(alloc, &answer, numbers)?;
        let copy = shown.copy()?;
        self.known.insert(numbers, shown)?;
        Ok(copy)
    }
}

// The owner and the group that `stat` wrote: the number and the name of each, each ended by a NUL. It fails where these are the
// names of other numbers, as where another program has just changed the owner.
fn read_answer(alloc: Global, answer: &[u8], numbers: (u32, u32)) -> Result<Shown, LookEnd> {
    let mut pieces = answer.split(|b| *b == 0);
    Ok(Shown {
        owner: next_name(alloc, pieces.next(), pieces.next(), numbers.0)?,
        group: next_name(alloc, pieces.next(), pieces.next(), numbers.1)?,
    })
}

// The name that stands behind its number.
fn next_name(
    alloc: Global,
    number_piece: Option<&[u8]>,
    name: Option<&[u8]>,
    number: u32,
) -> Result<Text, LookEnd>
    ensures { IfOk result (λ shown. IsOwner shown) }
{
    match (number_piece, name) {
        (Some(piece), Some(name)) if is_number(piece, number) => {
            Ok(name_or_number(alloc, name, number)?)
        }
        _ => Err(LookEnd::Failed),
    }
}

// Whether the bytes are this number.
fn is_number(bytes: &[u8], number: u32) -> bool {
    match str::from_utf8(bytes) {
        Ok(text) => text.parse::<u32>() == Ok(number),
        Err(_) => false,
    }
}

// The name where it can be shown, else the number. `stat` writes `UNKNOWN` where the host has no name.
fn name_or_number(alloc: Global, name: &[u8], number: u32) -> Result<Text, Memory>
    ensures { IfOk result (λ shown. IsOwner shown) }
{
    match str::from_utf8(name) {
        Ok(name) if is_owner(name) && name != "UNKNOWN" => Text::copy_of(alloc, name),
        _ => number_text(alloc, number),
    }
}

fn number_text(alloc: Global, number: u32) -> Result<Text, Memory>
    ensures { IfOk result (λ shown. IsOwner shown) }
{
    Ok(Text::from_string(format!(in alloc; "{number}")?))
}

// Whether a text can be shown as an owner: 1 to 64 bytes from 33 to 126.
fn is_owner(text: &str) -> bool
    ensures { IsTrue result → IsOwner text.now }
{
    let bytes = text.as_bytes();
    let has_length = 1 <= bytes.len() && bytes.len() <= MAX_OWNER_BYTES;
    has_length && bytes.iter().all(|b| 33 <= *b && *b <= 126)
}
