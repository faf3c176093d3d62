// The changing calls, over slots and files.
ghost use Rattle.std.specs.Prelude.{◌≡◌, None, OnOk, OnErr, IsSome, IsTrue, pos};
ghost use Rattle.std.specs.FinMap.{get, insert, remove as without};
ghost use Rattle.tree_core.specs.FileTree.{IsTree, CanDo, CanRename, HasMode, done, renamed, set_mode_of};
ghost use Rattle.mem_tree.specs.Slots.{Keep, Counted, FilesBelow, tree_in, times_in, timed, file_number, content_number, node_of, file_node, with_path, with_node, fits};
ghost use Rattle.dired_text.specs.Paths.{rest_below};
ghost use Rattle.mem_tree.specs.Times.{times_after, renamed_time};
ghost use Rattle.tree_core.specs.declared.node.Node.TheVariants as node;

use crate::files::{FileBody, FileMap};
use crate::renaming::rename;
use crate::slots::{Content, Slot, SlotMap};
use dired_text::{Memory, Name};
use std::alloc::Global;
use tree_core::{Change, Node};

/// The number of the file at these names.
pub fn number_at(slots: &SlotMap, names: &[Name]) -> Option<u64>
    ensures { result ≡ file_number (get slots.now names.now) }
{
    slots.get(names)?.content.number()
}

/// Puts a directory or a link at an absent path.
pub fn make(
    slots: &mut SlotMap,
    files: &FileMap,
    names: &[Name],
    content: Content,
    mtime: i64,
) -> Result<(), Memory>
    requires absent { get slots.old names.now ≡ None }
    requires content { content_number content ≡ None }
    requires counted { Counted slots.old files.now }
    ensures ok { OnOk result
        (Keep slots.new files.now
        (insert (tree_in slots.old files.now) names.now (node_of files.now content))
        (timed names.now mtime (times_in slots.old))) }
    ensures err { OnErr result (slots.new ≡ slots.old) }
{
    slots.insert(names, Slot { content, mtime })
}

/// Puts another path of the file of this number at an absent path.
pub fn make_hard(
    slots: &mut SlotMap,
    files: &mut FileMap,
    names: &[Name],
    number: u64,
    mtime: i64,
) -> Result<(), Memory>
    requires absent { get slots.old names.now ≡ None }
    requires counted { Counted slots.old files.old }
    requires known { IsSome (get files.old number) }
    ensures ok { OnOk result
        (Keep slots.new files.new
        (insert (tree_in slots.old files.old) names.now (file_node number (get files.old number)))
        (timed names.now mtime (times_in slots.old))) }
    ensures files { OnOk result (files.new ≡ with_path number files.old) }
    ensures err { OnErr result ((slots.new ≡ slots.old) × (files.new ≡ files.old)) }
{
    let Some(body) = files.get(number) else {
        return Ok(());
    };
    // a file with 2^64 paths has no room in memory
    let paths = body.paths.checked_add(1).ok_or(Memory)?;
    let content = Content::File(number);
    slots.insert(names, Slot { content, mtime })?;
    files.set_paths(number, paths);
    Ok(())
}

/// Puts a new file of this number at an absent path.
pub fn write_file(
    slots: &mut SlotMap,
    files: &mut FileMap,
    names: &[Name],
    number: u64,
    body: FileBody,
    mtime: i64,
) -> Result<(), Memory>
    requires absent { get slots.old names.now ≡ None }
    requires counted { Counted slots.old files.old }
    requires new { get files.old number ≡ None }
    requires one { body.paths ≡ 1 }
    ensures ok { OnOk result
        (Keep slots.new files.new
        (insert (tree_in slots.old files.old) names.now (node.File number body.bytes body.mode))
        (timed names.now mtime (times_in slots.old))) }
    ensures files { OnOk result (files.new ≡ insert files.old number body) }
    ensures err { OnErr result ((slots.new ≡ slots.old) × (files.new ≡ files.old)) }
{
    files.insert(number, body)?;
    let content = Content::File(number);
    let made = slots.insert(names, Slot { content, mtime });
    if made.is_err() {
        files.remove(number);
    }
    made
}

/// Puts a node at an absent path, and a file whose number has a body as another path of it.
pub fn put_node(
    slots: &mut SlotMap,
    files: &mut FileMap,
    names: &[Name],
    node: &Node,
    mtime: i64,
) -> Result<(), Memory>
    requires absent { get slots.old names.now ≡ None }
    requires counted { Counted slots.old files.old }
    requires fits { IsTrue (fits files.old node.now) }
    ensures ok { OnOk result
        (Keep slots.new files.new (insert (tree_in slots.old files.old) names.now node.now)
        (timed names.now mtime (times_in slots.old))) }
    ensures files { OnOk result (files.new ≡ with_node node.now files.old) }
    ensures err { OnErr result ((slots.new ≡ slots.old) × (files.new ≡ files.old)) }
{
    match node {
        Node::Dir(mode) => make(slots, files, names, Content::Dir(*mode), mtime),
        Node::Link(target) => {
            let content = Content::Link(target.copy()?);
            make(slots, files, names, content, mtime)
        }
        Node::File {
            number,
            bytes,
            mode,
        } => {
            if files.get(*number).is_some() {
                return make_hard(slots, files, names, *number, mtime);
            }
            let body = FileBody {
                bytes: bytes.copy()?,
                mode: *mode,
                paths: 1,
            };
            write_file(slots, files, names, *number, body, mtime)
        }
    }
}

// Gives what stands there another mode.
fn set_mode(slots: &mut SlotMap, files: &mut FileMap, names: &[Name], mode: u16)
    requires has { HasMode (tree_in slots.old files.old) names.now }
    requires counted { Counted slots.old files.old }
    ensures { Keep slots.new files.new
        (set_mode_of (get (tree_in slots.old files.old) names.now)
        (tree_in slots.old files.old) names.now mode) (times_in slots.old) }
{
    match number_at(slots, names) {
        Some(number) => files.set_mode(number, mode),
        None => slots.set_content(names, Content::Dir(mode)),
    }
}

// Takes what stands there out.
fn remove(slots: &mut SlotMap, files: &mut FileMap, names: &[Name])
    requires counted { Counted slots.old files.old }
    ensures { Keep slots.new files.new (without (tree_in slots.old files.old) names.now)
        (timed names.now (pos 0) (times_in slots.old)) }
{
    if let Some(slot) = slots.remove(names) {
        if let Content::File(number) = slot.content {
            files.drop_path(number);
        }
    }
}

// Moves `from` and all below it.
fn move_all(
    alloc: Global,
    slots: &mut SlotMap,
    files: &FileMap,
    from: &[Name],
    to: &[Name],
) -> Result<(), Memory>
    requires tree { IsTree (tree_in slots.old files.now) }
    requires can { CanRename (tree_in slots.old files.now) from.now to.now }
    requires counted { Counted slots.old files.now }
    ensures ok { OnOk result
        (Keep slots.new files.now (renamed (tree_in slots.old files.now) from.now to.now)
        (λ q. renamed_time (rest_below to.now q) (rest_below from.now q)
        (times_in slots.old) from.now q)) }
    ensures err { OnErr result (slots.new ≡ slots.old) }
{
    rename(alloc, slots, from, to)
}

/// Does the call. `next` is the number of a file that it writes.
pub fn apply(
    alloc: Global,
    slots: &mut SlotMap,
    files: &mut FileMap,
    change: &Change,
    next: u64,
) -> Result<(), Memory>
    requires tree { IsTree (tree_in slots.old files.old) }
    requires can { CanDo change.now (tree_in slots.old files.old) }
    requires new { FilesBelow next (tree_in slots.old files.old) }
    requires counted { Counted slots.old files.old }
    ensures ok { OnOk result
        (Keep slots.new files.new (done change.now next (tree_in slots.old files.old))
        (times_after change.now (times_in slots.old))) }
    ensures err { OnErr result ((slots.new ≡ slots.old) × (files.new ≡ files.old)) }
{
    match change {
        Change::MakeDir(path, mode) => { make(slots, files, path.names(), Content::Dir(*mode), 0) }
        Change::MakeLink(path, target) => {
            let content = Content::Link(target.copy()?);
            make(slots, files, path.names(), content, 0)
        }
        Change::MakeHard(path, old) => match number_at(slots, old.names()) {
            Some(number) => make_hard(slots, files, path.names(), number, 0),
            None => Ok(()),
        },
        Change::WriteFile(path, bytes, mode) => {
            let body = FileBody {
                bytes: bytes.copy()?,
                mode: *mode,
                paths: 1,
            };
            write_file(slots, files, path.names(), next, body, 0)
        }
        Change::Rename(from, to) => move_all(alloc, slots, files, from.names(), to.names()),
        Change::SetMode(path, mode) => {
            set_mode(slots, files, path.names(), *mode);
            Ok(())
        }
        Change::Remove(path) | Change::RemoveDir(path) => {
            remove(slots, files, path.names());
            Ok(())
        }
        Change::Sync => Ok(()),
    }
}
