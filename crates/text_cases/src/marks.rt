// Marks, and backups in excess.
use crate::answer::{push, word};
use case_tables::{RowFault, number_of, path_of};
use dired_text::{Memory, Path};
use mark_table::{MarkFault, Marks, excess_backups};
use std::alloc::Global;

/// The marks of these words, each a path, `=` and the mark.
pub fn marks_of(alloc: Global, words: &[&str]) -> Result<Marks, RowFault> {
    let mut marks = Marks::new(alloc)?;
    for word in words {
        let Some((path, mark)) = word.split_once('=') else {
            return Err(RowFault::Bad);
        };
        match (marks.set(path_of(alloc, path)?, byte_of(mark)?), mark) {
            (Ok(()), _) => {}
            (Err(MarkFault::Memory), _) => return Err(RowFault::Memory),
            (Err(_), _) => return Err(RowFault::Bad),
        }
    }
    Ok(marks)
}

/// The marks in the order of the paths.
pub fn shown(alloc: Global, marks: &Marks) -> Result<String, RowFault> {
    let mut text = word(alloc, "marks")?;
    for path in marks.paths()? {
        push(&mut text, path.text()?.as_str())?;
        if let Some(mark) = marks.get(&path) {
            text.push('=')?;
            text.push(char::from(mark))?;
        }
    }
    Ok(text)
}

/// What is answered to a row that changes marks: the marks behind it, or its refusal.
pub fn answer(alloc: Global, marks: &mut Marks, fields: &[&str]) -> Result<String, RowFault> {
    match changed(alloc, marks, fields)? {
        Ok(()) => shown(alloc, marks),
        Err(MarkFault::BadMark) => Ok(word(alloc, "refused: no mark")?),
        Err(MarkFault::NothingToUndo) => Ok(word(alloc, "refused: nothing to undo")?),
        Err(MarkFault::Memory) => Err(RowFault::Memory),
    }
}

fn changed(
    alloc: Global,
    marks: &mut Marks,
    fields: &[&str],
) -> Result<Result<(), MarkFault>, RowFault> {
    match fields {
        ["mark", path, byte] => Ok(marks.set(path_of(alloc, path)?, byte_of(byte)?)),
        ["unmark", path] => {
            marks.clear(&path_of(alloc, path)?);
            Ok(Ok(()))
        }
        ["unmark-all"] => {
            marks.clear_all();
            Ok(Ok(()))
        }
        ["unmark-those", byte] => Ok(marks.clear_mark(byte_of(byte)?)),
        ["change", old, new] => Ok(marks.replace(byte_of(old)?, byte_of(new)?)),
        ["toggle", paths @ ..] => {
            marks.toggle(&paths_of(alloc, paths)?)?;
            Ok(Ok(()))
        }
        ["move", pairs @ ..] => {
            marks.moved(&pairs_of(alloc, pairs)?)?;
            Ok(Ok(()))
        }
        ["save"] => {
            marks.save()?;
            Ok(Ok(()))
        }
        ["undo"] => Ok(marks.undo()),
        _ => Err(RowFault::Bad),
    }
}

/// The numeric backups of these that are in excess, if so many old and new ones are kept.
pub fn backups(alloc: Global, fields: &[&str]) -> Result<String, RowFault> {
    let ["backups", kept_old, kept_new, paths @ ..] = fields else {
        return Err(RowFault::Bad);
    };
    let (Ok(kept_old), Ok(kept_new)) = (kept_old.parse::<u32>(), kept_new.parse::<u32>()) else {
        return Err(RowFault::Bad);
    };
    let mut text = word(alloc, "excess")?;
    for path in &excess_backups(alloc, &paths_of(alloc, paths)?, kept_old, kept_new)? {
        push(&mut text, path.text()?.as_str())?;
    }
    Ok(text)
}

// A mark: a character, or a number of three digits.
fn byte_of(text: &str) -> Result<u8, RowFault> {
    if text.len() == 3 {
        return u8::try_from(number_of(text)?).map_err(|_| RowFault::Bad);
    }
    match text.as_bytes() {
        [byte] => Ok(*byte),
        _ => Err(RowFault::Bad),
    }
}

fn paths_of(alloc: Global, words: &[&str]) -> Result<Vec<Path>, RowFault> {
    let mut paths = Vec::new(alloc);
    for word in words {
        paths.push(path_of(alloc, word)?)?;
    }
    Ok(paths)
}

// Moves, each written as `FROM>TO`.
fn pairs_of(alloc: Global, words: &[&str]) -> Result<Vec<(Path, Path)>, RowFault> {
    let mut pairs = Vec::new(alloc);
    for word in words {
        let Some((from, to)) = word.split_once('>') else {
            return Err(RowFault::Bad);
        };
        pairs.push((path_of(alloc, from)?, path_of(alloc, to)?))?;
    }
    Ok(pairs)
}
