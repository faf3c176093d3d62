// What an edited buffer asks for.
ghost use Rattle.std.specs.Prelude.{◌≡◌, ◌⊎◌, ◌<◌, ◌||◌, ◌∷◌, ◌++◌, [], length, true, false, Ok, Err, IfOk, IfErr, OnOk, option_to_list};
ghost use Rattle.std.specs.BTreeSet.{contains};
ghost use Rattle.dired_text.specs.Answers.{IsOrMemory};
ghost use Rattle.dired_text.specs.Paths.{Names, path_cmp};
ghost use Rattle.wdired_buffer.specs.declared.faults.EditsFault.TheVariants.{Faulty as faulty_line, Memory as memory};
ghost use Rattle.wdired_buffer.specs.declared.faults.LineCause.TheVariants as cause_of;
ghost use Rattle.wdired_buffer.specs.Edits.{edits_of, line_asks, nothing, same_fixed as same_fixed_bytes, section, shows, is_shown, asks_in};

use crate::splitting::{count_lines, split_at_most, split_line};
use crate::typed::{Asked, asked_of, faulty, read_typed};
use crate::{BufferLine, EditsFault, LineCause};
use dired_text::{Bytes, Memory, Path};
use std::alloc::Global;
use std::collections::BTreeSet;
use tree_core::Edit;

/// What an edited buffer asks for.
#[derive(Debug, PartialEq, Eq, Drop)]
pub struct Edited {
    /// In the order of the lines.
    pub edits: Vec<Edit>,
    /// The paths of the entries whose names were emptied, in the order of the lines.
    pub emptied: Vec<Path>,
}

/// What an edited text of a buffer asks for, line by line. An entry's line gives an edit where its name names another
/// path, where a link has another target, or where its mode is another one; an empty name names none. A newline may be
/// missing behind the last line.
///
/// # Errors
/// `LineCount` where the numbers of lines differ, at the first line that only one of them has. Otherwise the first line
/// that can't be taken, with the first cause of [`LineCause`] that it has.
pub fn edits(alloc: Global, before: &[BufferLine], after: &[u8]) -> Result<Edited, EditsFault>
    requires before { length before.now < 4294967295 }
    requires after { length after.now < 4294967295 }
    ensures edits { IfOk result (λ r. edits_of before.now after.now ≡ Ok (asks_in r)) }
    ensures refused { IfErr result (λ e. (e ≡ memory) ⊎ (edits_of before.now after.now ≡ Err e)) }
{
    let count = count_lines(after);
    if count != before.len() {
        return Err(faulty(count.min(before.len()) as u32 + 1, LineCause::LineCount));
    }
    let mut edited = Edited::none(alloc);
    let mut passed = Passed::none(alloc);
    let mut rest = after;
    let mut number = 1;
    for line in before {
        let Some((text, behind)) = split_line(rest) else {
            unreachable!()
        };
        let asked = line_asked(alloc, number, &passed.dir, line, text)?;
        passed.pass(number, line)?;
        edited.push(asked)?;
        number += 1;
        rest = behind;
    }
    Ok(edited)
}

impl Edited {
    // Nothing is asked for.
    fn none(alloc: Global) -> Self
        ensures edits { result.edits.items ≡ [] }
        ensures emptied { result.emptied.items ≡ [] }
    {
        Edited {
            edits: Vec::new(alloc),
            emptied: Vec::new(alloc),
        }
    }

    // Adds what a line asks for.
    fn push(&mut self, asked: Asked) -> Result<(), Memory>
        ensures edits { OnOk result (self.new.edits.items ≡ self.old.edits.items
            ++ option_to_list asked.edit) }
        ensures emptied { OnOk result (self.new.emptied.items ≡ self.old.emptied.items
            ++ option_to_list asked.emptied) }
    {
        let Asked { edit, emptied } = asked;
        if let Some(edit) = edit {
            self.edits.push(edit)?;
        }
        if let Some(path) = emptied {
            self.emptied.push(path)?;
        }
        Ok(())
    }
}

// The lines before one: the directory of the section that they end in, and the paths that they show.
#[derive(Drop)]
struct Passed {
    dir: Path,
    shown: BTreeSet<Path>,
}

impl Passed {
    // No lines.
    fn none(alloc: Global) -> Self
        ensures dir { result.dir ≡ [] }
        ensures shown { (q : Names) → contains path_cmp result.shown q ≡ false }
    {
        Passed {
            dir: Path::root(alloc),
            shown: BTreeSet::new(alloc),
        }
    }

    // Passes the line of this number, whose path no earlier line may show.
    fn pass(&mut self, number: u32, line: &BufferLine) -> Result<(), EditsFault>
        ensures dir { OnOk result (self.new.dir ≡ section self.old.dir (line.now ∷ [])) }
        ensures shown { OnOk result ((q : Names) → contains path_cmp self.new.shown q ≡
            (contains path_cmp self.old.shown q || shows q line.now)) }
        ensures ok { OnOk result (is_shown (contains path_cmp self.old.shown) line.now ≡ false) }
        ensures twice { IfErr result
            (λ e. (e ≡ memory) ⊎ ((e ≡ faulty_line number cause_of.Twice) ×
            (is_shown (contains path_cmp self.old.shown) line.now ≡ true))) }
    {
        match line {
            BufferLine::Fixed(_) => {}
            BufferLine::Header { dir, .. } => self.dir = dir.copy()?,
            BufferLine::Entry { source, .. } => {
                if !self.shown.insert(source.copy()?)? {
                    return Err(faulty(number, LineCause::Twice));
                }
            }
        }
        Ok(())
    }
}

// What a line of a directory's section asks for by its new text.
#[tactic(auto, unfolding(crate::specs::Edits::line_asks))]
fn line_asked(
    alloc: Global,
    number: u32,
    dir: &Path,
    line: &BufferLine,
    after: &[u8],
) -> Result<Asked, EditsFault>
    ensures { IsOrMemory memory (line_asks number dir.now line.now after.now) result }
{
    match line {
        BufferLine::Fixed(text) | BufferLine::Header { text, .. } => {
            if after == text.as_slice() {
                Ok(no_edit())
            } else {
                Err(faulty(number, LineCause::Fixed))
            }
        }
        BufferLine::Entry {
            text,
            name_at,
            source,
            was,
        } => {
            if after == text.as_slice() {
                return Ok(no_edit());
            }
            if !same_fixed(*name_at, text, after) {
                return Err(faulty(number, LineCause::Fixed));
            }
            let typed = read_typed(alloc, number, dir, *name_at, was, after)?;
            Ok(asked_of(number, source, was, typed)?)
        }
    }
}

fn no_edit() -> Asked
    ensures { result ≡ nothing }
{
    Asked {
        edit: None,
        emptied: None,
    }
}

// Whether two texts of an entry's line are the same outside mode, name and target.
fn same_fixed(name_at: u64, text: &Bytes, after: &[u8]) -> bool
    ensures { result ≡ same_fixed_bytes name_at text.now after.now }
{
    let (old, _) = split_at_most(text.as_slice(), name_at as usize);
    let (new, _) = split_at_most(after, name_at as usize);
    let same_kind = split_at_most(after, 3).0 == split_at_most(text.as_slice(), 3).0;
    same_kind && split_at_most(new, 12).1 == split_at_most(old, 12).1
}
