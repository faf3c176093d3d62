// A buffer on its happy path.
use crate::Buffer;
use dired_text::{MemSink, Memory, Name, Path, Text};
use listing_text::Line;
use mark_table::Marks;
use std::alloc::Global;
use tree_core::Kind;

const WHOLE: &[u8] = b"dired 1
  .:
  total 2
  -rw-r--r-- 1 o g 5 1970-01-01 00:00 a
* -rw-r--r-- 1 o g 5 1970-01-01 00:00 b
";

const HIDDEN: &[u8] = b"dired 1
  .: ...
";

fn line(alloc: Global, name: &str) -> Result<Line, Memory> {
    Ok(Line {
        kind: Kind::File,
        mode: 0o644,
        links: 1,
        owner: Text::copy_of(alloc, "o")?,
        group: Text::copy_of(alloc, "g")?,
        size: 5,
        minute: 0,
        name: Text::copy_of(alloc, name)?,
        target: Text::copy_of(alloc, "")?,
    })
}

fn path(alloc: Global, name: &str) -> Result<Path, Memory> {
    match Name::new(alloc, name)? {
        Some(name) => Ok(Path::root(alloc).child(&name)?.unwrap_or(Path::root(alloc))),
        None => Ok(Path::root(alloc)),
    }
}

fn listed(alloc: Global) -> Result<Buffer, Memory> {
    let mut lines = Vec::new(alloc);
    lines.push(line(alloc, "a")?)?;
    lines.push(line(alloc, "b")?)?;
    lines.push(line(alloc, "c")?)?;
    Buffer::of_lines(alloc, lines)
}

// What is printed, with a mark at `b` and without `c`.
fn shown(alloc: Global, buffer: &Buffer) -> Result<MemSink, Memory> {
    let mut marks = Marks::new(alloc)?;
    if marks.set(path(alloc, "b")?, b'*').is_err() {
        return Err(Memory);
    }
    let mut omitted = Vec::new(alloc);
    omitted.push(path(alloc, "c")?)?;
    let mut sink = MemSink::new(alloc, Vec::new(alloc))?;
    match buffer.print(&marks, &omitted, &mut sink) {
        Ok(()) => Ok(sink),
        Err(_) => Err(Memory),
    }
}

#[test]
fn a_killed_line_comes_back(rt: HostRuntime) {
    let alloc = rt.alloc();
    let mut buffer = listed(alloc).expect(&rt, "there is memory");
    let a = path(alloc, "a").expect(&rt, "there is memory");
    assert!(rt; buffer.kill_line(&a).is_ok());
    assert!(rt; buffer.kill_line(&a).is_err());
    assert!(rt; buffer.unkill().is_ok());
    assert!(rt; buffer.unkill().is_err());
    let sink = shown(alloc, &buffer).expect(&rt, "there is memory");
    assert!(rt; sink.taken() == WHOLE);
}

#[test]
fn the_root_is_hidden_and_never_killed(rt: HostRuntime) {
    let alloc = rt.alloc();
    let mut buffer = listed(alloc).expect(&rt, "there is memory");
    let root = Path::root(alloc);
    assert!(rt; buffer.kill_section(&root).is_err());
    assert!(rt; buffer.hide(&root).is_ok());
    let sink = shown(alloc, &buffer).expect(&rt, "there is memory");
    assert!(rt; sink.taken() == HIDDEN);
    let sections = buffer.sections().expect(&rt, "there is memory");
    assert!(rt; sections.len() == 1);
}
