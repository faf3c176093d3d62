// The changes of a buffer's sections, and how they are undone.
use crate::UndoBuffer;
use dired_text::{Memory, Name, Path, Text};
use listing_text::Line;
use section_buffer::BufferEnd;
use std::alloc::Global;
use tree_core::Kind;

fn line(alloc: Global, name: &str) -> Result<Line, Memory> {
    Ok(Line {
        kind: Kind::File,
        mode: 0o644,
        links: 1,
        owner: Text::copy_of(alloc, "o")?,
        group: Text::copy_of(alloc, "g")?,
        size: 5,
        minute: 0,
        name: Text::copy_of(alloc, name)?,
        target: Text::copy_of(alloc, "")?,
    })
}

fn path(alloc: Global, name: &str) -> Result<Path, Memory> {
    match Name::new(alloc, name)? {
        Some(name) => Ok(Path::root(alloc).child(&name)?.unwrap_or(Path::root(alloc))),
        None => Ok(Path::root(alloc)),
    }
}

fn paths(alloc: Global, names: &[&str]) -> Result<Vec<Path>, Memory> {
    let mut paths = Vec::new(alloc);
    for name in names {
        paths.push(path(alloc, name)?)?;
    }
    Ok(paths)
}

fn listed(alloc: Global) -> Result<UndoBuffer, Memory> {
    let mut lines = Vec::new(alloc);
    lines.push(line(alloc, "a")?)?;
    lines.push(line(alloc, "b")?)?;
    lines.push(line(alloc, "c")?)?;
    UndoBuffer::of_lines(alloc, lines)
}

// How many lines the sections have.
fn lines_left(buffer: &UndoBuffer) -> Result<usize, Memory> {
    let sections = buffer.buffer().sections()?;
    Ok(
        sections
            .iter()
            .map(|section| section.lines.as_slice().len())
            .fold(0, usize::saturating_add),
    )
}

#[test]
fn lines_that_were_killed_together_come_back_together(rt: HostRuntime) {
    let alloc = rt.alloc();
    let mut buffer = listed(alloc).expect(&rt, "there is memory");
    let outer = paths(alloc, &["a", "c", "d"]).expect(&rt, "there is memory");
    let inner = paths(alloc, &["b"]).expect(&rt, "there is memory");
    assert!(rt; buffer.kill(&outer).is_ok());
    assert!(rt; lines_left(&buffer) == Ok(1));
    assert!(rt; buffer.kill(&inner).is_ok());
    assert!(rt; lines_left(&buffer) == Ok(0));
    assert!(rt; buffer.undo() == Ok(()));
    assert!(rt; lines_left(&buffer) == Ok(1));
    assert!(rt; buffer.undo() == Ok(()));
    assert!(rt; lines_left(&buffer) == Ok(3));
    assert!(rt; buffer.undo() == Err(BufferEnd::NotThere));
}

#[test]
fn the_root_is_turned_and_never_taken_out(rt: HostRuntime) {
    let alloc = rt.alloc();
    let mut buffer = listed(alloc).expect(&rt, "there is memory");
    let root = Path::root(alloc);
    let a = path(alloc, "a").expect(&rt, "there is memory");
    let lines = paths(alloc, &["a", "b"]).expect(&rt, "there is memory");
    assert!(rt; buffer.take_out(&root) == Err(BufferEnd::NotThere));
    assert!(rt; buffer.take_out(&a) == Err(BufferEnd::NotThere));
    assert!(rt; buffer.turn(&a) == Err(BufferEnd::NotThere));
    assert!(rt; buffer.turn(&root) == Ok(()));
    assert!(rt; buffer.buffer().is_hidden(&root) == Some(true));
    assert!(rt; buffer.kill(&lines).is_ok());
    assert!(rt; lines_left(&buffer) == Ok(3));
    assert!(rt; buffer.undo() == Ok(()));
    assert!(rt; buffer.undo() == Ok(()));
    assert!(rt; buffer.buffer().is_hidden(&root) == Some(false));
    assert!(rt; buffer.undo() == Err(BufferEnd::NotThere));
}
