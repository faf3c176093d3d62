// Paths that words name.
ghost use Rattle.std.specs.Prelude.{◌≡◌};
ghost use Rattle.dired_text.specs.Answers.{IsOrMemory};
ghost use Rattle.command_words.specs.declared.command.WordsFault.TheVariants.{Memory as memory};
ghost use Rattle.command_words.specs.Commands.{path_named, by_name as by_name_of};

use crate::WordsFault;
use dired_text::{NameError, Path, resolve};
use std::alloc::Global;

/// The path that a word names from the root.
pub fn path_named_by(alloc: Global, word: &str) -> Result<Path, WordsFault>
    ensures { IsOrMemory memory (path_named word.now) result }
{
    by_name(resolve(alloc, &Path::root(alloc), word))
}

// A path that was found, or a refusal of the words.
fn by_name(found: Result<Path, NameError>) -> Result<Path, WordsFault>
    ensures { result ≡ by_name_of found }
{
    match found {
        Ok(path) => Ok(path),
        Err(NameError::Memory) => Err(WordsFault::Memory),
        Err(_) => Err(WordsFault::Usage),
    }
}
