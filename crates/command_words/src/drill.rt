// The words of `drill`.
ghost use Rattle.std.specs.Prelude.{◌≡◌, map, string_bytes, IfOk};
ghost use Rattle.dired_text.specs.Answers.{IsOrMemory};
ghost use Rattle.clap.specs.Words.{app_of, rows_of, found_of};
ghost use Rattle.command_words.specs.declared.command.WordsFault.TheVariants.{Memory as memory};
ghost use Rattle.command_words.specs.Commands.{asked_by, drill_app, drill_by as drill_by_rows};

use crate::defining::{plain, with_word};
use crate::matching::{first_value, matched};
use crate::{Command, WordsFault};
use clap::ArgMatches;
use listing_text::read_number;
use std::alloc::{AllocError, Global};

// The most directories of a drill.
const MAX_GROUPS: u64 = 20_000;

/// What the words behind `drill` ask for: `N`.
pub fn read_drill(alloc: Global, words: &[String]) -> Result<Command, WordsFault>
    ensures { IsOrMemory memory
        (asked_by drill_app drill_by_rows (map string_bytes words.now)) result }
{
    let matches = matched(definition(alloc)?, words)?;
    drill_by(&matches)
}

// The definition of the command.
fn definition<'a>(alloc: Global) -> Result<clap::Command<'a>, AllocError>
    ensures { IfOk result (λ c. app_of c ≡ drill_app) }
{
    with_word(alloc, plain(alloc, "drill"), "N")
}

// What the value of the command's argument asks for.
fn drill_by(matches: &ArgMatches<'_>) -> Result<Command, WordsFault>
    ensures { result ≡ drill_by_rows (rows_of (found_of matches.now)) }
{
    let Some(number) = first_value(matches, "N") else {
        return Err(WordsFault::Usage);
    };
    match read_number(number.as_bytes(), MAX_GROUPS) {
        Some(groups) if groups > 0 => Ok(Command::Drill {
            groups: groups as u32,
        }),
        _ => Err(WordsFault::Usage),
    }
}
