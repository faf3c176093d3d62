// The words of a command line.
ghost use Rattle.std.specs.Prelude.{◌≡◌, map, string_bytes};
ghost use Rattle.dired_text.specs.Answers.{IsOrMemory};
ghost use Rattle.command_words.specs.declared.command.WordsFault.TheVariants.{Memory as memory};
ghost use Rattle.command_words.specs.Commands.{command_of};

use crate::commit::read_commit;
use crate::drill::read_drill;
use crate::list::read_list;
use crate::recover::read_recover;
use crate::{Command, WordsFault};
use std::alloc::Global;

/// What the words of a command line, without the program's name, ask for.
///
/// # Errors
/// `Usage` exactly where the first word is no command, where the command's definition refuses the others, where a word
/// that names a directory is neither `.` nor a path from the root, or where the number of a drill isn't 1 to 20,000.
pub fn read_words(alloc: Global, words: &[String]) -> Result<Command, WordsFault>
    ensures { IsOrMemory memory (command_of (map string_bytes words.now)) result }
{
    let [command, rest @ ..] = words else {
        return Err(WordsFault::Usage);
    };
    match command.as_str() {
        "list" => read_list(alloc, rest),
        "commit" => read_commit(alloc, rest),
        "recover" => read_recover(alloc, rest),
        "drill" => read_drill(alloc, rest),
        _ => Err(WordsFault::Usage),
    }
}
