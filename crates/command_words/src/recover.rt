// The words of `recover`.
ghost use Rattle.std.specs.Prelude.{◌≡◌, map, string_bytes, IfOk};
ghost use Rattle.dired_text.specs.Answers.{IsOrMemory};
ghost use Rattle.clap.specs.Words.{app_of};
ghost use Rattle.command_words.specs.declared.command.WordsFault.TheVariants.{Memory as memory};
ghost use Rattle.command_words.specs.Commands.{asked_by, recover_app, recover_by};

use crate::defining::{plain, with_named_flag};
use crate::matching::{is_set, matched};
use crate::{Command, WordsFault};
use std::alloc::{AllocError, Global};

/// What the words behind `recover` ask for: `[--back]`.
pub fn read_recover(alloc: Global, words: &[String]) -> Result<Command, WordsFault>
    ensures { IsOrMemory memory
        (asked_by recover_app recover_by (map string_bytes words.now)) result }
{
    let matches = matched(definition(alloc)?, words)?;
    Ok(Command::Recover {
        back: is_set(&matches, "back"),
    })
}

// The definition of the command.
fn definition<'a>(alloc: Global) -> Result<clap::Command<'a>, AllocError>
    ensures { IfOk result (λ c. app_of c ≡ recover_app) }
{
    with_named_flag(alloc, plain(alloc, "recover"), "back")
}
