// The edits of a drill.
ghost use Rattle.std.specs.Prelude.{◌≡◌, ◌≤◌, ◌<◌, ◌^◌, IfOk, length};
ghost use Rattle.drill_tree.specs.Drill.{drill_edits as drill_edits_of, numbered as numbered_from, shown as shown_of};
ghost use Rattle.edit_words.specs.WellFormed.{AreAsked};

use crate::moves::{Move, drill_moves};
use dired_text::{Memory, Text};
use std::alloc::Global;
use tree_core::{Changes, Edit, Items, Kind, Shown};

/// The edits of a drill of so many groups, 20,000 at most, group by group. Their lines are numbered from 1.
///
/// # Errors
/// Want of memory.
pub fn drill_edits(alloc: Global, groups: u32) -> Result<Changes, Memory>
    requires { groups ≤ 20000 }
    ensures edits { IfOk result (λ changes. changes ≡ drill_edits_of groups) }
    ensures asked { IfOk result (λ changes. AreAsked changes) }
{
    let moves = drill_moves(alloc, groups)?;
    let edits = numbered(alloc, moves)?;
    Ok(Changes::Edits(Items::from_vec(edits)))
}

// The edits of these moves, in the lines from 1 on.
fn numbered(alloc: Global, moves: Vec<Move>) -> Result<Vec<Edit>, Memory>
    requires { length moves.items < 2 ^ 32 }
    ensures { IfOk result (λ v. v.items ≡ numbered_from 1 moves.items) }
{
    let mut edits = Vec::with_capacity(alloc, moves.len())?;
    for one in moves {
        edits.push(Edit {
            line: edits.len() as u32 + 1,
            source: one.source,
            was: shown(alloc, one.is_dir),
            to: Some(one.to),
            target: None,
            mode: None,
        })?;
    }
    Ok(edits)
}

// What the line of an entry shows.
fn shown(alloc: Global, is_dir: bool) -> Shown
    ensures { result ≡ shown_of is_dir }
{
    Shown {
        kind: if is_dir { Kind::Dir } else { Kind::File },
        mode: if is_dir { 0o755 } else { 0o644 },
        target: Text::from_string(String::new(alloc)),
    }
}

#[cfg(test)]
mod tests {
    use super::*;

    const FIRST_FIVE: &str = "1 g000000/a g000000/b\n\
        2 g000000/b g000000/c\n\
        3 g000000/c g000000/d\n\
        4 g000001/c0 g000001/c1\n\
        5 g000001/c1 g000001/c0\n\
        6 g000002/s/x g000002/s/y\n\
        7 g000002/s g000002/r\n\
        8 g000003/a g000003/b\n\
        9 g000004/s/x g000004/s\n\
        10 g000004/s g000004/r\n";

    // Each edit on a line: its number, its source and its new path.
    fn text_of(alloc: Global, edits: &[Edit]) -> Result<String, Memory> {
        let mut text = String::new(alloc);
        for edit in edits {
            let line = edit.line;
            let source = edit.source.text()?;
            let number = format!(in alloc; "{line} ")?;
            text.push_str(&number)?;
            text.push_str(source.as_str())?;
            text.push_str(" ")?;
            if let Some(to) = &edit.to {
                let to = to.text()?;
                text.push_str(to.as_str())?;
            }
            text.push_str("\n")?;
        }
        Ok(text)
    }

    fn drilled(alloc: Global, groups: u32) -> Result<String, Memory>
        requires { groups ≤ 20000 }
    {
        match drill_edits(alloc, groups)? {
            Changes::Edits(edits) => text_of(alloc, edits.as_slice()),
            Changes::Removals(_) | Changes::Creations(_) => Ok(String::new(alloc)),
        }
    }

    #[test]
    fn each_kind_of_group_is_edited(rt: HostRuntime) {
        let text = drilled(rt.alloc(), 5).expect(&rt, "there is memory");
        assert_eq!(rt; text.as_str(), FIRST_FIVE);
    }
}
