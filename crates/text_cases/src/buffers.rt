// What an edited buffer asks for.
use crate::answer::push;
use case_tables::{RowFault, bytes_of};
use dired_text::Memory;
use std::alloc::Global;
use tree_core::Edit;
use wdired_buffer::{Edited, edits, read_buffer};

/// What is answered to a buffer as it was printed and as it was edited: the edits, and the emptied names.
pub fn answer(alloc: Global, before: &str, after: &str) -> Result<String, RowFault> {
    let before = bytes_of(alloc, before)?;
    let after = bytes_of(alloc, after)?;
    if before.len() >= u32::MAX as usize || after.len() >= u32::MAX as usize {
        return Err(RowFault::Bad);
    }
    let Ok(lines) = read_buffer(alloc, &before) else {
        return Err(RowFault::Bad);
    };
    match edits(alloc, &lines, &after) {
        Ok(edited) => shown(alloc, &edited),
        Err(_) => Err(RowFault::Bad),
    }
}

fn shown(alloc: Global, edited: &Edited) -> Result<String, RowFault> {
    let mut answer = String::new(alloc);
    for edit in &edited.edits {
        push_edit(&mut answer, edit)?;
    }
    for path in &edited.emptied {
        push(&mut answer, "emptied")?;
        push(&mut answer, path.text()?.as_str())?;
    }
    Ok(answer)
}

// The line, the source, and behind `to`, `target` and `mode` what is new.
fn push_edit(answer: &mut String, edit: &Edit) -> Result<(), Memory> {
    let line = format!(in *answer.allocator(); "line {}", edit.line)?;
    if !answer.is_empty() {
        answer.push_str(" ")?;
    }
    answer.push_str(line.as_str())?;
    push(answer, edit.source.text()?.as_str())?;
    if let Some(to) = &edit.to {
        push(answer, "to")?;
        push(answer, to.text()?.as_str())?;
    }
    if let Some(target) = &edit.target {
        push(answer, "target")?;
        push(answer, target.as_str())?;
    }
    if let Some(mode) = edit.mode {
        let mode = format!(in *answer.allocator(); " mode {mode:o}")?;
        answer.push_str(mode.as_str())?;
    }
    Ok(())
}
