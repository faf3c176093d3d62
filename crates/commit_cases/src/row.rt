// The rows of a table.
use case_tables::{
    RowFault, ScheduleRow, bytes_of, entry_of, mode_of, path_of, schedule_row_of, text_of,
};
use dired_text::{Bytes, Path, Text};
use mem_tree::Entry;
use std::alloc::Global;
use tree_core::{Creation, Edit, Fresh, Kind, Removal, Shown};

/// What is printed of a plan.
#[derive(Clone, Copy, Debug, PartialEq, Eq)]
pub enum Shows {
    /// How many steps there are of each kind.
    Numbers,
    /// The steps.
    Steps,
}

/// What a row says.
#[derive(Drop)]
pub enum Row {
    /// Nothing.
    Blank,
    /// A case of this name begins.
    Case(Text),
    /// An entry stands in the tree.
    Entry(Entry),
    Edit(Edit),
    Removal(Removal),
    Creation(Creation),
    /// The replacement of what stands at this path is confirmed.
    Confirm(Path),
    /// All replacements are.
    ConfirmAll,
    /// The changes are checked.
    Check,
    /// They are checked and planned, and the steps are carried out if so asked.
    Plan { shows: Shows, carries: bool },
    /// Which calls of the commit fail.
    Schedule(ScheduleRow),
    /// The changes are checked and committed.
    Commit,
    /// What a commit left in the tree is recovered, or taken back.
    Recover { back: bool },
}

/// What a line says.
///
/// # Errors
/// `Bad` where it is no row.
pub fn read_row(alloc: Global, line: &str) -> Result<Row, RowFault> {
    if line.is_empty() || line.starts_with('#') {
        return Ok(Row::Blank);
    }
    let mut fields = Vec::new(alloc);
    for field in line.split(' ') {
        fields.push(field)?;
    }
    match fields.as_slice() {
        ["case", name] => Ok(Row::Case(text_of(alloc, name)?)),
        ["dir" | "link" | "file", ..] => Ok(Row::Entry(entry_of(alloc, &fields)?)),
        ["edit" | "remove" | "make", ..] => change_of(alloc, &fields),
        ["confirm", path] => Ok(Row::Confirm(path_of(alloc, path)?)),
        ["confirm-all"] => Ok(Row::ConfirmAll),
        ["check"] => Ok(Row::Check),
        ["plan", shows] => plan_of(shows, false),
        ["plan", shows, "tree"] => plan_of(shows, true),
        ["commit"] => Ok(Row::Commit),
        ["recover"] => Ok(Row::Recover { back: false }),
        ["recover", "back"] => Ok(Row::Recover { back: true }),
        ["fail-change" | "fail-look" | "stop", ..] => Ok(Row::Schedule(schedule_row_of(&fields)?)),
        _ => Err(RowFault::Bad),
    }
}

fn plan_of(shows: &str, carries: bool) -> Result<Row, RowFault> {
    let shows = match shows {
        "numbers" => Shows::Numbers,
        "steps" => Shows::Steps,
        _ => return Err(RowFault::Bad),
    };
    Ok(Row::Plan { shows, carries })
}

// A change.
fn change_of(alloc: Global, fields: &[&str]) -> Result<Row, RowFault> {
    match fields {
        ["edit", line, source, kind, shown, to, target, mode] => Ok(Row::Edit(Edit {
            source: path_of(alloc, source)?,
            was: shown_of(alloc, kind, shown)?,
            to: new_path_of(alloc, to)?,
            target: new_target_of(alloc, target)?,
            mode: new_mode_of(mode)?,
            line: line_of(line)?,
        })),
        ["remove", line, path, kind, shown] => Ok(Row::Removal(Removal {
            path: path_of(alloc, path)?,
            was: shown_of(alloc, kind, shown)?,
            line: line_of(line)?,
        })),
        ["make", line, to, what @ ..] => Ok(Row::Creation(Creation {
            to: path_of(alloc, to)?,
            what: fresh_of(alloc, what)?,
            line: line_of(line)?,
        })),
        _ => Err(RowFault::Bad),
    }
}

fn line_of(field: &str) -> Result<u32, RowFault> {
    match field.parse::<u32>() {
        Ok(line) => Ok(line),
        Err(_) => Err(RowFault::Bad),
    }
}

// What a line shows: a kind, and a link's target or another entry's mode.
fn shown_of(alloc: Global, kind: &str, shown: &str) -> Result<Shown, RowFault> {
    let kind = match kind {
        "file" => Kind::File,
        "dir" => Kind::Dir,
        "link" => {
            return Ok(Shown {
                kind: Kind::Link,
                mode: 0o777,
                target: text_of(alloc, shown)?,
            });
        }
        _ => return Err(RowFault::Bad),
    };
    Ok(Shown {
        kind,
        mode: mode_of(shown)?,
        target: text_of(alloc, "")?,
    })
}

fn new_path_of(alloc: Global, field: &str) -> Result<Option<Path>, RowFault> {
    match field {
        "\\e" => Ok(None),
        _ => Ok(Some(path_of(alloc, field)?)),
    }
}

fn new_target_of(alloc: Global, field: &str) -> Result<Option<Text>, RowFault> {
    match field {
        "\\e" => Ok(None),
        _ => Ok(Some(text_of(alloc, field)?)),
    }
}

fn new_mode_of(field: &str) -> Result<Option<u16>, RowFault> {
    match field {
        "\\e" => Ok(None),
        _ => Ok(Some(mode_of(field)?)),
    }
}

// What is to be made.
fn fresh_of(alloc: Global, fields: &[&str]) -> Result<Fresh, RowFault> {
    match fields {
        ["link", target] => Ok(Fresh::Link(text_of(alloc, target)?)),
        ["file", mode, bytes] => Ok(Fresh::File(
            Bytes::from_vec(bytes_of(alloc, bytes)?),
            mode_of(mode)?,
        )),
        ["same", path] => Ok(Fresh::Same(path_of(alloc, path)?)),
        _ => Err(RowFault::Bad),
    }
}
