//! The program `dired`: a directory editor whose commits survive a crash at any moment.
#![tactic(auto)]

use dired_run::run;
use std::env;
use std::process::ExitCode;
use std::time::{SystemTime, UNIX_EPOCH};
use tree_host::{FileShelf, HostShell, HostTree, OutSink, RegexPatterns};

// The ends that are no status of a run: the working directory can't be taken as the tree, the clock can't be read, and the words
// can't be had.
const NO_TREE: u8 = 40;

const NO_CLOCK: u8 = 41;

const NO_WORDS: u8 = 42;

// Where the link stands that tells of a new directory whose mode is still to be set: under a name of new entries of the staging
// directory, with a number that no commit gives one. A commit makes each directory with this mode.
const REMINDER: &str = ".wdired-commit/f4294967295";

const DIR_MODE: u16 = 0o755;

fn main(rt: HostRuntime) -> ExitCode {
    let Ok(words) = words_after_the_name(&rt) else {
        return ExitCode::from(NO_WORDS);
    };
    let Ok(mut tree) = HostTree::open(rt) else {
        return ExitCode::from(NO_TREE);
    };
    if tree.leave_reminders(REMINDER, DIR_MODE).is_err() {
        return ExitCode::from(NO_TREE);
    }
    let Some(now) = seconds_since_1970(&rt) else {
        return ExitCode::from(NO_CLOCK);
    };
    let mut inputs = FileShelf::new(rt);
    let mut patterns = RegexPatterns::new(rt);
    let mut shell = HostShell::new(rt);
    let mut output = OutSink::new(rt);
    let status = run(
        rt.alloc(),
        &words,
        &mut tree,
        &mut inputs,
        &mut patterns,
        &mut shell,
        &mut output,
        now,
    );
    ExitCode::from(status.number())
}

// What the clock shows, in seconds. A clock that is set before 1970 can't be read.
fn seconds_since_1970(rt: &HostRuntime) -> Option<i64> {
    let now = SystemTime::now(rt).ok()?;
    let since = now.duration_since(UNIX_EPOCH).ok()?;
    i64::try_from(since.as_secs()).ok()
}

fn words_after_the_name(rt: &HostRuntime) -> std::io::Result<Vec<String>> {
    let mut words = Vec::new(rt.alloc());
    for word in env::args(rt)?.skip(1) {
        words.push(word)?;
    }
    Ok(words)
}
