// The words of `list`.
ghost use Rattle.std.specs.Prelude.{◌≡◌, false, map, string_bytes, IfOk};
ghost use Rattle.dired_text.specs.Answers.{IsOrMemory};
ghost use Rattle.clap.specs.Words.{app_of, rows_of, found_of};
ghost use Rattle.command_words.specs.declared.command.WordsFault.TheVariants.{Memory as memory};
ghost use Rattle.command_words.specs.Commands.{asked_by, list_app, list_by as list_by_rows, switches_by as switches_by_rows, paths_of, dir_named};

use crate::defining::{plain, with_flag, with_words};
use crate::matching::{all_values, is_set, matched};
use crate::paths::path_named_by;
use crate::{Command, Paths, WordsFault};
use clap::ArgMatches;
use dired_text::Path;
use listing_text::Switches;
use std::alloc::{AllocError, Global};

/// What the words behind `list` ask for: `[-A] [-l] [-t] [-S] [-r] [DIR]...`.
pub fn read_list(alloc: Global, words: &[String]) -> Result<Command, WordsFault>
    ensures { IsOrMemory memory
        (asked_by list_app list_by_rows (map string_bytes words.now)) result }
{
    let matches = matched(definition(alloc)?, words)?;
    list_by(alloc, &matches)
}

// The definition of the command.
fn definition<'a>(alloc: Global) -> Result<clap::Command<'a>, AllocError>
    ensures { IfOk result (λ c. app_of c ≡ list_app) }
{
    let command = with_flag(alloc, plain(alloc, "list"), "all", 'A')?;
    let command = with_flag(alloc, command, "long", 'l')?;
    let command = with_flag(alloc, command, "time", 't')?;
    let command = with_flag(alloc, command, "size", 'S')?;
    let command = with_flag(alloc, command, "reverse", 'r')?;
    with_words(alloc, command, "DIR")
}

// What the values of the command's arguments ask for.
fn list_by(alloc: Global, matches: &ArgMatches<'_>) -> Result<Command, WordsFault>
    ensures { IsOrMemory memory (list_by_rows (rows_of (found_of matches.now))) result }
{
    let words = all_values(matches, "DIR").unwrap_or(&[]);
    Ok(Command::List {
        switches: switches_by(matches),
        dirs: dirs_of(alloc, words)?,
    })
}

// How the listing is made: without a flag, as with `-A` and `-l`.
fn switches_by(matches: &ArgMatches<'_>) -> Switches
    ensures { result ≡ switches_by_rows (rows_of (found_of matches.now)) }
{
    let all = is_set(matches, "all");
    let long = is_set(matches, "long");
    let by_time = is_set(matches, "time");
    let by_size = is_set(matches, "size");
    let reverse = is_set(matches, "reverse");
    Switches {
        all: all || !(long || by_time || by_size || reverse),
        by_time,
        by_size,
        reverse,
    }
}

// The directories that these words name.
fn dirs_of(alloc: Global, words: &[&str]) -> Result<Paths, WordsFault>
    ensures { IsOrMemory memory (paths_of dir_named (map (λ w. w.now) words.now)) result }
{
    let mut dirs = Vec::new(alloc);
    for word in words {
        dirs.push(dir_named_by(alloc, word)?)?;
    }
    Ok(Paths::from_vec(dirs))
}

// The directory that a word names from the root, which is `.`.
fn dir_named_by(alloc: Global, word: &str) -> Result<Path, WordsFault>
    ensures { IsOrMemory memory (dir_named word.now) result }
{
    if word == "." {
        return Ok(Path::root(alloc));
    }
    path_named_by(alloc, word)
}
