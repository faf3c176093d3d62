// What files show of a content.
ghost use Rattle.std.specs.Prelude.{◌≡◌, ◌↔◌, ◌-◌, ◌^◌, min, IsTrue};
ghost use Rattle.std.specs.FinMap.{get};
ghost use Rattle.tree_core.specs.FileTree.{mode_of};
ghost use Rattle.mem_tree.specs.Mem.{is_same_path};
ghost use Rattle.mem_tree.specs.MemFields.{size_of};
ghost use Rattle.mem_tree.specs.Slots.{node_of, file_bytes, links_in, fits as fits_in};

use crate::files::FileMap;
use crate::slots::Content;
use dired_text::Name;
use tree_core::Node;

/// The bytes of the file of this number. Without one there are none.
pub fn bytes(files: &FileMap, number: u64) -> &[u8]
    ensures { result.now ≡ file_bytes (get files.now number) }
{
    match files.get(number) {
        Some(body) => body.bytes.as_slice(),
        None => &[],
    }
}

/// The mode, which for a link is 0o777.
pub fn mode(files: &FileMap, content: &Content) -> u16
    ensures { result ≡ mode_of (node_of files.now content.now) }
{
    match content {
        Content::Dir(mode) => *mode,
        Content::Link(_) => 0o777,
        Content::File(number) => match files.get(*number) {
            Some(body) => body.mode,
            None => 0,
        },
    }
}

/// The link count, at most the greatest number of 32 bits.
pub fn links(files: &FileMap, content: &Content) -> u32
    ensures { result ≡ links_in files.now content.now }
{
    match content {
        Content::File(number) => match files.get(*number) {
            Some(body) => capped(body.paths),
            None => 0,
        },
        _ => 1,
    }
}

// The number, or the greatest one of 32 bits.
fn capped(count: u64) -> u32
    ensures { result ≡ min count (2 ^ 32 - 1) }
{
    if count < 0xffff_ffff {
        count as u32
    } else {
        0xffff_ffff
    }
}

/// The size in bytes.
pub fn size(files: &FileMap, content: &Content) -> u64
    ensures { result ≡ size_of (node_of files.now content.now) }
{
    match content {
        Content::Dir(_) => 0,
        Content::Link(target) => target.as_str().len() as u64,
        Content::File(number) => bytes(files, *number).len() as u64,
    }
}

/// Whether two contents show the same.
pub fn shows_same(files: &FileMap, content: &Content, others: &FileMap, other: &Content) -> bool
    ensures { IsTrue result ↔ (node_of files.now content.now ≡ node_of others.now other.now) }
{
    match content {
        Content::Dir(mode) => match other {
            Content::Dir(other_mode) => mode == other_mode,
            _ => false,
        },
        Content::Link(target) => match other {
            Content::Link(other_target) => target == other_target,
            _ => false,
        },
        Content::File(number) => match other {
            Content::File(other_number) => {
                number == other_number
                    && bytes(files, *number) == bytes(others, *other_number)
                    && mode(files, content) == mode(others, other)
            }
            _ => false,
        },
    }
}

/// Whether these are the same names.
pub fn is_same(names: &[Name], others: &[Name]) -> bool
    ensures { result ≡ is_same_path names.now others.now }
{
    names == others
}

/// Whether no other file has the number of the node.
pub fn fits(files: &FileMap, node: &Node) -> bool
    ensures { result ≡ fits_in files.now node.now }
{
    match node {
        Node::File {
            number,
            bytes,
            mode,
        } => match files.get(*number) {
            Some(body) => body.bytes == *bytes && body.mode == *mode,
            None => true,
        },
        _ => true,
    }
}
