// The words of `commit`.
ghost use Rattle.std.specs.Prelude.{◌≡◌, map, string_bytes, IfOk};
ghost use Rattle.dired_text.specs.Answers.{IsOrMemory};
ghost use Rattle.clap.specs.Words.{app_of, rows_of, found_of};
ghost use Rattle.command_words.specs.declared.command.WordsFault.TheVariants.{Memory as memory};
ghost use Rattle.command_words.specs.Commands.{asked_by, commit_app, commit_by as commit_by_rows, paths_of, path_named};

use crate::defining::{plain, with_named_flag, with_word, with_words};
use crate::matching::{all_values, first_value, is_set, matched};
use crate::paths::path_named_by;
use crate::{Command, Paths, WordsFault};
use clap::ArgMatches;
use dired_text::Text;
use std::alloc::{AllocError, Global};

/// What the words behind `commit` ask for: `[--all] BEFORE AFTER [CONFIRMED]...`.
pub fn read_commit(alloc: Global, words: &[String]) -> Result<Command, WordsFault>
    ensures { IsOrMemory memory
        (asked_by commit_app commit_by_rows (map string_bytes words.now)) result }
{
    let matches = matched(definition(alloc)?, words)?;
    commit_by(alloc, &matches)
}

// The definition of the command.
fn definition<'a>(alloc: Global) -> Result<clap::Command<'a>, AllocError>
    ensures { IfOk result (λ c. app_of c ≡ commit_app) }
{
    let command = with_named_flag(alloc, plain(alloc, "commit"), "all")?;
    let command = with_word(alloc, command, "BEFORE")?;
    let command = with_word(alloc, command, "AFTER")?;
    with_words(alloc, command, "CONFIRMED")
}

// What the values of the command's arguments ask for.
fn commit_by(alloc: Global, matches: &ArgMatches<'_>) -> Result<Command, WordsFault>
    ensures { IsOrMemory memory (commit_by_rows (rows_of (found_of matches.now))) result }
{
    let (Some(before), Some(after)) = (
        first_value(matches, "BEFORE"),
        first_value(matches, "AFTER"),
    ) else {
        return Err(WordsFault::Usage);
    };
    let words = all_values(matches, "CONFIRMED").unwrap_or(&[]);
    Ok(Command::Commit {
        all: is_set(matches, "all"),
        before: Text::copy_of(alloc, before)?,
        after: Text::copy_of(alloc, after)?,
        confirmed: confirmed_by(alloc, words)?,
    })
}

// The files that these words name.
fn confirmed_by(alloc: Global, words: &[&str]) -> Result<Paths, WordsFault>
    ensures { IsOrMemory memory (paths_of path_named (map (λ w. w.now) words.now)) result }
{
    let mut paths = Vec::new(alloc);
    for word in words {
        paths.push(path_named_by(alloc, word)?)?;
    }
    Ok(Paths::from_vec(paths))
}
