// An entry of a tree, read.
use crate::RowFault;
use crate::fields::{bytes_of, mode_of, number_of, path_of, text_of, time_of};
use dired_text::Bytes;
use mem_tree::Entry;
use std::alloc::Global;
use tree_core::Node;

/// The entry that the fields of a row describe.
///
/// # Errors
/// `Bad` where they describe none.
pub fn entry_of(alloc: Global, fields: &[&str]) -> Result<Entry, RowFault> {
    let (node, time, path) = match fields {
        ["dir", mode, time, path] => (Node::Dir(mode_of(mode)?), *time, *path),
        ["link", time, path, target] => (Node::Link(text_of(alloc, target)?), *time, *path),
        ["file", number, mode, time, path, bytes] => (
            Node::File {
                number: number_of(number)?,
                bytes: Bytes::from_vec(bytes_of(alloc, bytes)?),
                mode: mode_of(mode)?,
            },
            *time,
            *path,
        ),
        _ => return Err(RowFault::Bad),
    };
    Ok(Entry {
        path: path_of(alloc, path)?,
        node,
        mtime: time_of(time)?,
    })
}
