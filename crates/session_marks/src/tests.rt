// The marks of three paths, changed and taken back.
use crate::UndoMarks;
use dired_text::{Memory, Name, Path};
use std::alloc::Global;

// What `a`, `b` and `c` have, a dot for none: after each change, and after each undo.
const CHANGED: &str = "**. *D. *.. .** .D* .X* .X. ... ";

const TAKEN_BACK: &str = ".X. .X* .D* .** *.. *D. **. ... ";

fn paths(alloc: Global, names: &[&str]) -> Result<Vec<Path>, Memory> {
    let mut paths = Vec::new(alloc);
    for name in names {
        if let Some(name) = Name::new(alloc, name)? {
            if let Some(path) = Path::root(alloc).child(&name)? {
                paths.push(path)?;
            }
        }
    }
    Ok(paths)
}

fn show(alloc: Global, marks: &UndoMarks, text: &mut String) -> Result<(), Memory> {
    for path in &paths(alloc, &["a", "b", "c"])? {
        text.push(char::from(marks.get(path).unwrap_or(b'.')))?;
    }
    text.push(' ')?;
    Ok(())
}

fn change(alloc: Global, marks: &mut UndoMarks, text: &mut String) -> Result<(), Memory> {
    marks.put(&paths(alloc, &["a", "b", "a"])?, Some(b'*'))?;
    show(alloc, marks, text)?;
    marks.put(&paths(alloc, &["b"])?, Some(b'D'))?;
    show(alloc, marks, text)?;
    marks.put(&paths(alloc, &["c", "b"])?, None)?;
    show(alloc, marks, text)?;
    marks.toggle(&paths(alloc, &["a", "b", "c"])?)?;
    show(alloc, marks, text)?;
    marks.put(&paths(alloc, &["b"])?, Some(b'D'))?;
    show(alloc, marks, text)?;
    marks.replace(b'D', b'X')?;
    show(alloc, marks, text)?;
    marks.clear_mark(b'*')?;
    show(alloc, marks, text)?;
    marks.clear_all()?;
    show(alloc, marks, text)
}

fn take_back(alloc: Global, marks: &mut UndoMarks, text: &mut String) -> Result<(), Memory> {
    for _change in 0..8 {
        let _ = marks.undo()?;
        show(alloc, marks, text)?;
    }
    Ok(())
}

#[test]
fn each_change_is_taken_back(rt: HostRuntime) {
    let alloc = rt.alloc();
    let mut marks = UndoMarks::new(alloc).expect(&rt, "there is memory");
    let mut text = String::new(alloc);
    change(alloc, &mut marks, &mut text).expect(&rt, "there is memory");
    assert_eq!(rt; text.as_str(), CHANGED);
    let mut text = String::new(alloc);
    take_back(alloc, &mut marks, &mut text).expect(&rt, "there is memory");
    assert_eq!(rt; text.as_str(), TAKEN_BACK);
    assert!(rt; marks.undo() == Ok(false));
}

#[test]
fn a_change_that_is_forgotten_stays(rt: HostRuntime) {
    let alloc = rt.alloc();
    let mut marks = UndoMarks::new(alloc).expect(&rt, "there is memory");
    let all = paths(alloc, &["a", "b", "c"]).expect(&rt, "there is memory");
    assert!(rt; marks.put(&all, Some(b'*')).is_ok());
    assert!(rt; marks.clear_all().is_ok());
    assert!(rt; marks.undo() == Ok(true));
    marks.forget();
    assert!(rt; marks.undo() == Ok(false));
    assert_eq!(rt; marks.marks().count(b'*'), 3);
}
