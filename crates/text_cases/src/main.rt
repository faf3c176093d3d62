//! Has the texts of a table read, written, matched and evaluated: names and escapes, lines of listings, regexps and what they rename,
//! commands for the shell, buffers, journals, marks, settings and predicates on files. It prints what is answered to each row.
//! `docs/CASES.md` has the form of both texts. The status is 0, 1 where a line of the table isn't well formed, which is told by its
//! number, and 2 where memory, the input or the output failed.
#![tactic(auto)]

mod answer;
mod buffers;
mod finds;
mod journals;
mod lines;
mod marks;
mod names;
mod outside;
mod regexps;
mod settings;
mod shell;
mod texts;

use case_tables::run_table;
use std::process::ExitCode;
use texts::Texts;

fn main(rt: HostRuntime) -> ExitCode {
    match Texts::new(rt.alloc()) {
        Ok(mut texts) => run_table(&rt, &mut texts),
        Err(_) => ExitCode::from(2),
    }
}
