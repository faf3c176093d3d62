// The looks of a line, and what they answer.
ghost use Rattle.std.specs.Prelude.{◌≡◌};
ghost use Rattle.tree_core.specs.FileTree.{HasMode, IsDir, IsFile, Stands};
ghost use Rattle.tree_core.specs.History.{current_tree};

use crate::stop::Stop;
use crate::trees::text_of;
use crate::words::{number_of, path_of};
use case_tables::call_text;
use dired_text::Path;
use tree_core::{CallName, Kind, LookEnd, Meta, ReadEnd, Tree};

/// The word for a call.
pub fn call_word(name: Option<CallName>) -> &'static str {
    match name {
        None => "none",
        Some(call) => call_text(call),
    }
}

fn kind_word(kind: Option<Kind>) -> &'static str {
    match kind {
        None => "nothing",
        Some(Kind::File) => "file",
        Some(Kind::Dir) => "directory",
        Some(Kind::Link) => "link",
    }
}

// How a look without an answer ended.
fn end_word(end: LookEnd) -> Result<&'static str, Stop> {
    match end {
        LookEnd::Failed => Ok("failed"),
        LookEnd::Memory => Err(Stop::Outside),
    }
}

/// Makes a look, behind one at the kind of what stands there, and prints what it answered.
pub fn print_look<T: Tree>(
    rt: HostRuntime,
    tree: &mut T,
    call: &str,
    words: &str,
) -> Result<(), Stop>
    ensures untouched { T.Tells → T.history tree.new ≡ T.history tree.old }
{
    let (path, limit) = match (call, words.split_once(' ')) {
        ("read", Some((path, limit))) => (path, number_of(limit)?),
        ("read", None) | (_, Some(_)) => return Err(Stop::BadLine),
        (_, None) => (words, 0),
    };
    let path = path_of(rt.alloc(), path)?;
    let Ok(kind) = tree.kind(&path) else {
        return Ok(println!(rt; "{call} failed")?);
    };
    let word = kind_word(kind);
    match (call, kind) {
        ("kind", _) => Ok(println!(rt; "kind {word}")?),
        ("read", Some(Kind::File)) => print_bytes(rt, tree, &path, limit),
        (_, Some(Kind::Dir)) => print_dir_look(rt, tree, call, &path),
        ("mode", Some(Kind::File)) => print_mode(rt, tree, &path),
        ("meta", Some(_)) => print_meta(rt, tree, &path),
        _ => Ok(println!(rt; "{call} none")?),
    }
}

// A look at a directory.
fn print_dir_look<T: Tree>(
    rt: HostRuntime,
    tree: &mut T,
    call: &str,
    path: &Path,
) -> Result<(), Stop>
    requires { T.Tells → IsDir (current_tree (T.history tree.old)) path.now }
    ensures untouched { T.Tells → T.history tree.new ≡ T.history tree.old }
{
    match call {
        "mode" => print_mode(rt, tree, path),
        "meta" => print_meta(rt, tree, path),
        "names" => print_names(rt, tree, path),
        "is_empty" => match tree.is_empty(path) {
            Ok(is_empty) => Ok(println!(rt; "is_empty {is_empty}")?),
            Err(_) => Ok(println!(rt; "is_empty failed")?),
        },
        _ => Ok(println!(rt; "{call} none")?),
    }
}

fn print_mode<T: Tree>(rt: HostRuntime, tree: &mut T, path: &Path) -> Result<(), Stop>
    requires { T.Tells → HasMode (current_tree (T.history tree.old)) path.now }
    ensures untouched { T.Tells → T.history tree.new ≡ T.history tree.old }
{
    match tree.mode(path) {
        Ok(mode) => Ok(println!(rt; "mode {mode:o}")?),
        Err(_) => Ok(println!(rt; "mode failed")?),
    }
}

fn print_meta<T: Tree>(rt: HostRuntime, tree: &mut T, path: &Path) -> Result<(), Stop>
    requires { T.Tells → Stands (current_tree (T.history tree.old)) path.now }
    ensures untouched { T.Tells → T.history tree.new ≡ T.history tree.old }
{
    match tree.meta(rt.alloc(), path) {
        Ok(meta) => print_fields(rt, &meta),
        Err(end) => {
            let word = end_word(end)?;
            Ok(println!(rt; "meta {word}")?)
        }
    }
}

fn print_fields(rt: HostRuntime, meta: &Meta) -> Result<(), Stop> {
    let kind = kind_word(Some(meta.kind));
    let (mode, links, size, mtime) = (meta.mode, meta.links, meta.size, meta.mtime);
    let (owner, group) = (meta.owner.as_str(), meta.group.as_str());
    print!(rt; "meta {kind} {mode:o} {links} {owner} {group} {size} {mtime}")?;
    match meta.kind {
        Kind::Dir => {}
        Kind::File => {
            let number = meta.number;
            print!(rt; " {number}")?;
        }
        Kind::Link => {
            let target = meta.target.as_str();
            print!(rt; " {target}")?;
        }
    }
    Ok(println!(rt; "")?)
}

fn print_names<T: Tree>(rt: HostRuntime, tree: &mut T, path: &Path) -> Result<(), Stop>
    requires { T.Tells → IsDir (current_tree (T.history tree.old)) path.now }
    ensures untouched { T.Tells → T.history tree.new ≡ T.history tree.old }
{
    print!(rt; "names")?;
    match tree.names(rt.alloc(), path) {
        Ok(names) => {
            for name in &names {
                let name = name.as_str();
                print!(rt; " {name}")?;
            }
            Ok(println!(rt; "")?)
        }
        Err(end) => {
            let word = end_word(end)?;
            Ok(println!(rt; " {word}")?)
        }
    }
}

fn print_bytes<T: Tree>(rt: HostRuntime, tree: &mut T, path: &Path, limit: u64) -> Result<(), Stop>
    requires { T.Tells → IsFile (current_tree (T.history tree.old)) path.now }
    ensures untouched { T.Tells → T.history tree.new ≡ T.history tree.old }
{
    match tree.read(rt.alloc(), path, limit) {
        Ok(bytes) => {
            let text = text_of(bytes.as_slice())?;
            Ok(println!(rt; "read {text}")?)
        }
        Err(ReadEnd::Failed) => Ok(println!(rt; "read failed")?),
        Err(ReadEnd::TooLarge) => Ok(println!(rt; "read too large")?),
        Err(ReadEnd::Memory) => Err(Stop::Outside),
    }
}
