// The calls by their names.
use crate::answers::Answer;
use dired_text::{Failed, Path, resolve};
use std::alloc::Global;
use tree_core::Tree;
use tree_host::HostTree;

// The words of a line. Those that aren't there are empty.
#[derive(Clone, Copy)]
struct Words<'a> {
    call: &'a str,
    first: &'a str,
    second: &'a str,
    third: &'a str,
}

/// Makes the call that a line names.
pub fn make(alloc: Global, tree: &mut HostTree<HostRuntime>, line: &str) -> Answer {
    let mut words = line.split(' ');
    let words = Words {
        call: words.next().unwrap_or(""),
        first: words.next().unwrap_or(""),
        second: words.next().unwrap_or(""),
        third: words.next().unwrap_or(""),
    };
    if words.call == "sync" {
        return Answer::of_change(tree.sync());
    }
    if words.call == "leave_reminders" {
        return leave_reminders(tree, &words);
    }
    let Ok(path) = path_of(alloc, words.first) else {
        return Answer::NotMade;
    };
    match words.call {
        "kind" | "mode" | "is_empty" | "meta" | "names" | "read" => look(
            alloc, tree, &words, &path,
        ),
        "make_link" => Answer::of_change(tree.make_link(&path, words.second)),
        "remove" => Answer::of_change(tree.remove(&path)),
        "remove_dir" => Answer::of_change(tree.remove_dir(&path)),
        "make_hard" | "rename" => join(alloc, tree, &words, &path),
        _ => set(tree, &words, &path),
    }
}

// The setting that isn't a call of a tree.
fn leave_reminders(tree: &mut HostTree<HostRuntime>, words: &Words<'_>) -> Answer {
    let Ok(mode) = u16::from_str_radix(words.second, 8) else {
        return Answer::NotMade;
    };
    Answer::of_change(tree.leave_reminders(words.first, mode))
}

// The looks.
fn look(alloc: Global, tree: &mut HostTree<HostRuntime>, words: &Words<'_>, path: &Path) -> Answer {
    match words.call {
        "kind" => match tree.kind(path) {
            Ok(kind) => Answer::Kind(kind),
            Err(_) => Answer::Failed,
        },
        "mode" => match tree.mode(path) {
            Ok(mode) => Answer::Mode(mode),
            Err(_) => Answer::Failed,
        },
        "is_empty" => match tree.is_empty(path) {
            Ok(is_empty) => Answer::IsEmpty(is_empty),
            Err(_) => Answer::Failed,
        },
        "meta" => match tree.meta(alloc, path) {
            Ok(meta) => Answer::Meta(meta),
            Err(end) => Answer::of_look_end(end),
        },
        "names" => match tree.names(alloc, path) {
            Ok(names) => Answer::Names(names),
            Err(end) => Answer::of_look_end(end),
        },
        _ => match words.second.parse::<u64>() {
            Ok(limit) => match tree.read(alloc, path, limit) {
                Ok(bytes) => Answer::Bytes(bytes),
                Err(end) => Answer::of_read_end(end),
            },
            Err(_) => Answer::NotMade,
        },
    }
}

// The changing calls with two paths.
fn join(alloc: Global, tree: &mut HostTree<HostRuntime>, words: &Words<'_>, path: &Path) -> Answer {
    let Ok(other) = path_of(alloc, words.second) else {
        return Answer::NotMade;
    };
    match words.call {
        "make_hard" => Answer::of_change(tree.make_hard(path, &other)),
        _ => Answer::of_change(tree.rename(path, &other)),
    }
}

// The changing calls with a mode.
fn set(tree: &mut HostTree<HostRuntime>, words: &Words<'_>, path: &Path) -> Answer {
    let Ok(mode) = u16::from_str_radix(words.second, 8) else {
        return Answer::NotMade;
    };
    match words.call {
        "make_dir" => Answer::of_change(tree.make_dir(path, mode)),
        "set_mode" => Answer::of_change(tree.set_mode(path, mode)),
        "write_file" => Answer::of_change(tree.write_file(path, words.third.as_bytes(), mode)),
        _ => Answer::NotMade,
    }
}

fn path_of(alloc: Global, text: &str) -> Result<Path, Failed> {
    let root = Path::root(alloc);
    if text == "." {
        return Ok(root);
    }
    resolve(alloc, &root, text).map_err(|_| Failed)
}
