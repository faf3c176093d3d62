//! Makes the plans, the commits and the recoveries of a table of cases: its standard input holds trees, changes, confirmations and calls
//! that fail. It prints how each check ends; the steps of the plan or their numbers, and the tree to which they lead; or how the commit or
//! the recovery ends, and the tree that stands then. `docs/CASES.md` has the form of both texts. The status is 0, 1 where a line of the
//! table isn't well formed, which is told by its number, and 2 where memory, the input or the output failed.
#![tactic(auto)]

mod carrying;
mod case;
mod checking;
mod commit_report;
mod committing;
mod recovering;
mod recovery_report;
mod report;
mod row;

use case::Case;
use case_tables::run_table;
use std::process::ExitCode;

fn main(rt: HostRuntime) -> ExitCode {
    let mut case = Case::new(rt.alloc());
    run_table(&rt, &mut case)
}
