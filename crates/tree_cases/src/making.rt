// The changing calls.
use crate::stop::Stop;
use crate::words::{change_of, parts};
use case_tables::make;
use mem_tree::MemTree;

/// Makes the calls of a line, each of which can be made, and prints how each ended.
pub fn call(rt: HostRuntime, tree: &mut MemTree, calls: &str) -> Result<(), Stop> {
    let alloc = rt.alloc();
    print!(rt; "call")?;
    for token in &parts(alloc, calls, ' ')? {
        let change = change_of(alloc, token)?;
        if !tree.can(&change) {
            return Err(Stop::BadLine);
        }
        match make(tree, &change) {
            Ok(()) => print!(rt; " ok")?,
            Err(_) => print!(rt; " failed")?,
        }
    }
    Ok(println!(rt; "")?)
}

/// Prints of each call whether it can be made.
pub fn print_can(rt: HostRuntime, tree: &MemTree, calls: &str) -> Result<(), Stop> {
    let alloc = rt.alloc();
    print!(rt; "can")?;
    for token in &parts(alloc, calls, ' ')? {
        let can = tree.can(&change_of(alloc, token)?);
        print!(rt; " {can}")?;
    }
    Ok(println!(rt; "")?)
}
