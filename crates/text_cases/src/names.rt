// Paths and escapes.
use crate::answer::field;
use case_tables::{RowFault, path_of, text_of};
use dired_text::{EscapeError, NameError, Path, escape, resolve, unescape};
use std::alloc::Global;

/// What is answered to a row of paths and escapes: the path or the text, or its fault.
pub fn answer(alloc: Global, fields: &[&str]) -> Result<String, RowFault> {
    match fields {
        ["resolve", dir, text] => resolved(
            alloc,
            &dir_of(alloc, dir)?,
            text_of(alloc, text)?.as_str(),
        ),
        ["escape", text] => Ok(field(
            alloc,
            escape(alloc, text_of(alloc, text)?.as_str(), false)?.as_str(),
        )?),
        ["escape-in-link", text] => {
            Ok(field(
                alloc,
                escape(alloc, text_of(alloc, text)?.as_str(), true)?.as_str(),
            )?)
        }
        ["unescape", text] => unescaped(alloc, text_of(alloc, text)?.as_str()),
        _ => Err(RowFault::Bad),
    }
}

// A directory, or the root.
fn dir_of(alloc: Global, text: &str) -> Result<Path, RowFault> {
    match text {
        "\\e" => Ok(Path::root(alloc)),
        text => path_of(alloc, text),
    }
}

fn resolved(alloc: Global, dir: &Path, text: &str) -> Result<String, RowFault> {
    match resolve(alloc, dir, text) {
        Ok(path) => Ok(field(alloc, path.text()?.as_str())?),
        Err(NameError::Memory) => Err(RowFault::Memory),
        Err(fault) => Ok(format!(in alloc; "refused: {fault}")?),
    }
}

fn unescaped(alloc: Global, text: &str) -> Result<String, RowFault> {
    match unescape(alloc, text) {
        Ok(text) => Ok(field(alloc, text.as_str())?),
        Err(EscapeError::Memory) => Err(RowFault::Memory),
        Err(fault) => Ok(format!(in alloc; "refused: {fault}")?),
    }
}
