// The words of a line, read.
use crate::stop::Stop;
use dired_text::{Bytes, NameError, Path, Text, resolve};
use mem_tree::Entry;
use std::alloc::{AllocError, Global};
use tree_core::{Change, Node};

/// The parts of a text between marks. An empty text has none.
pub fn parts<'a>(alloc: Global, text: &'a str, mark: char) -> Result<Vec<&'a str>, Stop> {
    let mut parts = Vec::new(alloc);
    if !text.is_empty() {
        for part in text.split(mark) {
            parts.push(part)?;
        }
    }
    Ok(parts)
}

/// A path, or the root for `/`.
pub fn path_of(alloc: Global, text: &str) -> Result<Path, Stop> {
    let root = Path::root(alloc);
    if text == "/" {
        return Ok(root);
    }
    match resolve(alloc, &root, text) {
        Ok(path) => Ok(path),
        Err(NameError::Memory) => Err(Stop::Outside),
        Err(_) => Err(Stop::BadLine),
    }
}

/// A number.
pub fn number_of(text: &str) -> Result<u64, Stop> {
    text.parse::<u64>().map_err(|_| Stop::BadLine)
}

fn mode_of(text: &str) -> Result<u16, Stop> {
    u16::from_str_radix(text, 8).map_err(|_| Stop::BadLine)
}

// A target, in which `~` stands for a NUL.
fn target_of(alloc: Global, word: &str) -> Result<Text, AllocError> {
    let mut target = String::new(alloc);
    for letter in word.chars() {
        target.push(if letter == '~' { '\0' } else { letter })?;
    }
    Ok(Text::from_string(target))
}

// What an entry's words say of its path and of what stands there.
fn node_of(alloc: Global, words: &[&str]) -> Result<(Path, Node), Stop> {
    match words {
        ["d", path, mode] => Ok((path_of(alloc, path)?, Node::Dir(mode_of(mode)?))),
        ["l", path, target] => Ok((path_of(alloc, path)?, Node::Link(target_of(alloc, target)?))),
        ["f", path, number, bytes, mode] => {
            let number = number_of(number)?;
            let mode = mode_of(mode)?;
            let path = path_of(alloc, path)?;
            let bytes = Bytes::copy_of(alloc, bytes.as_bytes())?;
            let node = Node::File {
                number,
                bytes,
                mode,
            };
            Ok((path, node))
        }
        _ => Err(Stop::BadLine),
    }
}

fn entry_of(alloc: Global, token: &str) -> Result<Entry, Stop> {
    let (words, mtime) = token.split_once('@').unwrap_or((token, "0"));
    let mtime = mtime.parse::<i64>().map_err(|_| Stop::BadLine)?;
    let (path, node) = node_of(alloc, &parts(alloc, words, ',')?)?;
    Ok(Entry { path, node, mtime })
}

/// The entries of a tree.
pub fn entries_of(alloc: Global, text: &str) -> Result<Vec<Entry>, Stop> {
    let mut entries = Vec::new(alloc);
    for token in &parts(alloc, text, ' ')? {
        entries.push(entry_of(alloc, token)?)?;
    }
    Ok(entries)
}

/// A changing call.
pub fn change_of(alloc: Global, token: &str) -> Result<Change, Stop> {
    let words = parts(alloc, token, ',')?;
    match words.as_slice() {
        ["sync"] => Ok(Change::Sync),
        ["remove", path] => Ok(Change::Remove(path_of(alloc, path)?)),
        ["remove_dir", path] => Ok(Change::RemoveDir(path_of(alloc, path)?)),
        ["make_dir", path, mode] => Ok(Change::MakeDir(path_of(alloc, path)?, mode_of(mode)?)),
        ["set_mode", path, mode] => Ok(Change::SetMode(path_of(alloc, path)?, mode_of(mode)?)),
        [call, path, word] => two_words_of(alloc, call, path_of(alloc, path)?, word),
        ["write_file", path, bytes, mode] => {
            let mode = mode_of(mode)?;
            let bytes = Bytes::copy_of(alloc, bytes.as_bytes())?;
            Ok(Change::WriteFile(path_of(alloc, path)?, bytes, mode))
        }
        _ => Err(Stop::BadLine),
    }
}

// A changing call of a path and another one or a target.
fn two_words_of(alloc: Global, call: &str, path: Path, word: &str) -> Result<Change, Stop> {
    match call {
        "make_link" => Ok(Change::MakeLink(path, target_of(alloc, word)?)),
        "make_hard" => Ok(Change::MakeHard(path, path_of(alloc, word)?)),
        "rename" => Ok(Change::Rename(path, path_of(alloc, word)?)),
        _ => Err(Stop::BadLine),
    }
}

fn fate_of(token: &str) -> Result<(u64, bool), Stop> {
    match token.split_once(',') {
        Some((place, "done")) => Ok((number_of(place)?, true)),
        Some((place, "undone")) => Ok((number_of(place)?, false)),
        _ => Err(Stop::BadLine),
    }
}

/// The places of the changing calls that fail, and whether each is done.
pub fn fates_of(alloc: Global, text: &str) -> Result<Vec<(u64, bool)>, Stop> {
    let mut fates = Vec::new(alloc);
    for token in &parts(alloc, text, ' ')? {
        fates.push(fate_of(token)?)?;
    }
    Ok(fates)
}

/// The places of the looks that fail.
pub fn places_of(alloc: Global, text: &str) -> Result<Vec<u64>, Stop> {
    let mut places = Vec::new(alloc);
    for token in &parts(alloc, text, ' ')? {
        places.push(number_of(token)?)?;
    }
    Ok(places)
}
