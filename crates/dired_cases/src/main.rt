//! Runs the cases of a table: its standard input holds trees, inputs, words and calls that fail, and behind each run it
//! prints what was answered and written, the tree that reads afterwards, and whether something is pending. `docs/CASES.md`
//! has the form of both texts. The status is 0, 1 where a line of the table isn't well formed, which is told by its number,
//! and 2 where memory, the input or the output failed.
#![tactic(auto)]

mod case;
mod report;
mod row;
mod running;

use case::Case;
use case_tables::run_table;
use std::process::ExitCode;

fn main(rt: HostRuntime) -> ExitCode {
    let mut case = Case::new(rt.alloc());
    run_table(&rt, &mut case)
}
