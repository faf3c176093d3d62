//! Makes calls on the tree below the working directory, as its standard input says, one a line, and prints what each answered.
//! Scripts try the tree of the host on real files by it, and its shell and patterns.
//!
//! A line has the call's name and its words, each behind a space: `make_dir PATH MODE`, `make_link PATH TARGET`, `make_hard PATH
//! OLD`, `write_file PATH MODE TEXT`, `rename FROM TO`, `set_mode PATH MODE`, `remove PATH`, `remove_dir PATH`, `sync`, `kind PATH`,
//! `mode PATH`, `is_empty PATH`, `meta PATH`, `names PATH`, `read PATH LIMIT`, `leave_reminders PLACE MODE`, `shell TEXT`, `pattern TEXT`. Modes are octal, the path
//! `.` is the root, and a text goes to the end of the line. The status is 0, 2 where the input or the output failed, and 40 where the working directory can't be taken as the tree.
#![tactic(auto)]

mod answers;
mod calls;

use answers::Answer;
use calls::make;
use dired_text::{Patterns, Shell};
use std::io;
use std::process::ExitCode;
use tree_host::{HostShell, HostTree, RegexPatterns};

const NO_TREE: u8 = 40;

const NO_INPUT_OR_OUTPUT: u8 = 2;

fn main(rt: HostRuntime) -> ExitCode {
    let Ok(mut tree) = HostTree::open(rt) else {
        return ExitCode::from(NO_TREE);
    };
    match run(rt, &mut tree) {
        Ok(()) => ExitCode::from(0),
        Err(_) => ExitCode::from(NO_INPUT_OR_OUTPUT),
    }
}

fn run(rt: HostRuntime, tree: &mut HostTree<HostRuntime>) -> io::Result<()> {
    let mut shell = HostShell::new(rt);
    let mut patterns = RegexPatterns::new(rt);
    for line in rt.lines(rt.alloc()) {
        let line = line?;
        let answer = match line.as_str().split_once(' ') {
            Some(("shell", text)) => Answer::of_shell(shell.run(text)),
            Some(("pattern", text)) => Answer::of_pattern(patterns.build(rt.alloc(), text)),
            _ => make(rt.alloc(), tree, line.as_str()),
        };
        answer.print(rt, line.as_str())?;
    }
    Ok(())
}
