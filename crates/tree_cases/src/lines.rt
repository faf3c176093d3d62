// The lines of a table, by their words.
use crate::looks::{call_word, print_look};
use crate::making::{call, print_can};
use crate::stop::Stop;
use crate::trees::print_tree;
use crate::words::{entries_of, fates_of, number_of, parts, places_of};
use mem_tree::{BuildFault, MemTree};

/// Does what a line asks for, and prints what came.
pub fn answer(rt: HostRuntime, tree: &mut MemTree, line: &str) -> Result<(), Stop> {
    let alloc = rt.alloc();
    let (word, rest) = line.split_once(' ').unwrap_or((line, ""));
    match word {
        "" | "#" => Ok(println!(rt; "{line}")?),
        "tree" => build(rt, tree, rest),
        "fail" => Ok(tree.fail_changes(&fates_of(alloc, rest)?)?),
        "fail_looks" => Ok(tree.fail_looks(&places_of(alloc, rest)?)?),
        "call" => call(rt, tree, rest),
        "can" => print_can(rt, tree, rest),
        "reads" if rest.is_empty() => print_tree(rt, tree, "reads"),
        "same" => {
            let is_same = tree.same(&MemTree::new(alloc, &entries_of(alloc, rest)?)?);
            Ok(println!(rt; "same {is_same}")?)
        }
        "images" => print_images(rt, tree, rest),
        "faults" if rest.is_empty() => print_faults(rt, tree),
        "kind" | "mode" | "is_empty" | "meta" | "names" | "read" => print_look(
            rt, tree, word, rest,
        ),
        _ => Err(Stop::BadLine),
    }
}

// Takes the tree of these entries.
fn build(rt: HostRuntime, tree: &mut MemTree, entries: &str) -> Result<(), Stop> {
    let alloc = rt.alloc();
    match MemTree::new(alloc, &entries_of(alloc, entries)?) {
        Ok(built) => {
            *tree = built;
            Ok(())
        }
        Err(BuildFault::BadEntry(place)) => Ok(println!(rt; "refused {place}")?),
        Err(BuildFault::Memory) => Err(Stop::Outside),
    }
}

// Prints how many images there are, and those that are asked for.
fn print_images(rt: HostRuntime, tree: &MemTree, words: &str) -> Result<(), Stop> {
    let mut images = tree.images()?;
    let count = images.len();
    let (first, shown) = match parts(rt.alloc(), words, ' ')?.as_slice() {
        [] => (0, count as u64),
        [first, shown] => (number_of(first)?, number_of(shown)?),
        _ => return Err(Stop::BadLine),
    };
    println!(rt; "images {count}")?;
    let last = first.saturating_add(shown);
    for (place, image) in images.iter_mut().enumerate() {
        if first <= place as u64 && (place as u64) < last {
            print_tree(rt, image, "image")?;
        }
    }
    Ok(())
}

fn print_faults(rt: HostRuntime, tree: &MemTree) -> Result<(), Stop> {
    let faults = tree.faults();
    let (count, short) = (faults.count, tree.short());
    let last = call_word(faults.last);
    let last_before = call_word(faults.last_before);
    Ok(println!(rt; "faults {count} {last} {last_before} {short}")?)
}
