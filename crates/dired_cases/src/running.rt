// A run of the program over objects in memory.
use crate::report::{push_held, report_text};
use case_tables::{RowFault, STOPPED, Schedule, settle};
use dired_run::{Status, run};
use dired_text::{MemPatterns, MemShelf, MemShell, MemSink, Patterns, Shelf, Shell, Sink};
use mem_tree::MemTree;
use std::alloc::Global;
use tree_core::Tree;

// The moment of each run, in seconds since 1970.
const NOW: i64 = 0;

/// Runs the words, and answers what is printed of the status and of the bytes written. Of a run that is stopped neither is known.
pub fn run_on(
    alloc: Global,
    words: &[String],
    tree: &mut MemTree,
    shelf: MemShelf,
    schedule: Schedule,
) -> Result<String, RowFault> {
    schedule.begin(tree)?;
    let mut shelf = shelf;
    let mut patterns = MemPatterns::new(alloc, Vec::new(alloc))?;
    let mut shell = MemShell::new(alloc, 0, Vec::new(alloc))?;
    let mut sink = MemSink::new(alloc, schedule.writes)?;
    let ended = run_settled(
        alloc,
        words,
        tree,
        &mut shelf,
        &mut patterns,
        &mut shell,
        &mut sink,
    );
    let Some(status) = ended else {
        return Err(RowFault::Memory);
    };
    if schedule.image.is_some() {
        return Ok(String::from_str(alloc, STOPPED)?);
    }
    let mut text = report_text(alloc, &status, sink.taken())?;
    push_held(&mut text, &status)?;
    Ok(text)
}

// Runs the words once nothing is pending, or answers None where the sync before it failed.
fn run_settled<T: Tree, H: Shelf, P: Patterns, S: Shell, W: Sink>(
    alloc: Global,
    words: &[String],
    tree: &mut T,
    shelf: &mut H,
    patterns: &mut P,
    shell: &mut S,
    sink: &mut W,
) -> Option<Status> {
    if !settle(tree) {
        return None;
    }
    Some(run(alloc, words, tree, shelf, patterns, shell, sink, NOW))
}
