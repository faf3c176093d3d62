//! Tries the tree in memory on the table of cases that is its standard input, and prints what came of each line.
//!
//! A line is a word and what belongs to it, each behind one space. An empty line, and one whose word is `#`, is printed as it
//! stands: such a line begins a case.
//! - `tree ENTRY..`: from here on the tree of these entries, nothing of which fails. Of entries that make none, the place of
//!   the first that is refused is printed, and the tree before stays.
//! - `fail PLACE,done PLACE,undone ..`: these changing calls fail, counted from the next one as 0.
//! - `fail_looks PLACE..`: these looks fail, counted from the next one as 0.
//! - `call CALL..`: makes the calls, and prints of each whether it is `ok` or `failed`.
//! - `can CALL..`: prints of each call whether it can be made.
//! - `reads`: prints the entries of the tree that reads.
//! - `same ENTRY..`: prints whether it is the tree of these entries, by the numbers of files too.
//! - `images`, `images PLACE COUNT`: prints how many trees a crash may leave, and all of them or so many from a place on.
//! - `faults`: prints how many calls have failed, the names of the last one and of the one before it, and how many of them
//!   failed for want of memory.
//! - `kind PATH`, `mode PATH`, `is_empty PATH`, `meta PATH`, `names PATH`, `read PATH LIMIT`: a look, and what it answers, or
//!   `none` where there is nothing to look at. Each but `kind` is made behind a look at the kind, which counts as one too.
//!
//! An entry is `d,PATH,MODE`, `l,PATH,TARGET` or `f,PATH,NUMBER,BYTES,MODE`, and may end with `@` and its time. A call is
//! `make_dir,PATH,MODE`, `make_link,PATH,TARGET`, `make_hard,PATH,OLD`, `write_file,PATH,BYTES,MODE`, `rename,FROM,TO`,
//! `set_mode,PATH,MODE`, `remove,PATH`, `remove_dir,PATH` or `sync`. The path `/` is the root, modes are octal, and `~` in a
//! target stands for a NUL. Trees are printed by looks, none of which is to fail then.
//!
//! The status is 0, 1 where a line isn't well formed or has a call that can't be made (the line is told), and 2 where the
//! input, the output or memory failed.
#![tactic(auto)]

mod lines;
mod looks;
mod making;
mod stop;
mod trees;
mod words;

use lines::answer;
use mem_tree::MemTree;
use std::process::ExitCode;
use stop::Stop;

const BAD_TABLE: u8 = 1;

const NO_INPUT_OR_OUTPUT: u8 = 2;

fn main(rt: HostRuntime) -> ExitCode {
    let mut number = 0;
    match run(rt, &mut number) {
        Ok(()) => ExitCode::from(0),
        Err(Stop::BadLine) => {
            let _ = eprintln!(rt; "line {number} can't be taken");
            ExitCode::from(BAD_TABLE)
        }
        Err(Stop::Outside) => ExitCode::from(NO_INPUT_OR_OUTPUT),
    }
}

// Answers each line. The number is that of the line that was read last, from 1.
fn run(rt: HostRuntime, number: &mut u64) -> Result<(), Stop> {
    let mut tree = MemTree::new(rt.alloc(), &[])?;
    for line in rt.lines(rt.alloc()) {
        let line = line?;
        *number = number.saturating_add(1);
        answer(rt, &mut tree, line.as_str())?;
    }
    Ok(())
}
