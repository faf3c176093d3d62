// The parts of a command's definition.
ghost use Rattle.std.specs.Prelude.{◌≡◌, IfOk};
ghost use Rattle.clap.specs.Words.{app_of, with_rule};
ghost use Rattle.command_words.specs.Commands.{plain_app, flag_rule, named_flag, one_word, more_words};

use clap::{Arg, ArgAction, Command};
use std::alloc::{AllocError, Global};

/// A command of this name without flags for help and version, whose words stand alone.
pub fn plain<'a>(alloc: Global, name: &'a str) -> Command<'a>
    ensures { app_of result ≡ plain_app name.now }
{
    Command::new(alloc, name)
        .no_binary_name(true)
        .disable_help_flag(true)
        .disable_version_flag(true)
}

/// A command with one more flag, of one letter.
pub fn with_flag<'a>(
    alloc: Global,
    command: Command<'a>,
    id: &'a str,
    letter: char,
) -> Result<Command<'a>, AllocError>
    ensures { IfOk result (λ c. app_of c ≡
        with_rule (app_of command.entry) (flag_rule id.now letter)) }
{
    command.arg(Arg::new(alloc, id).short(letter).action(ArgAction::SetTrue))
}

/// A command with one more flag, which is written out.
pub fn with_named_flag<'a>(
    alloc: Global,
    command: Command<'a>,
    id: &'a str,
) -> Result<Command<'a>, AllocError>
    ensures { IfOk result (λ c. app_of c ≡ with_rule (app_of command.entry) (named_flag id.now)) }
{
    command.arg(Arg::new(alloc, id).long(id).action(ArgAction::SetTrue))
}

/// A command with one more word that has to be there.
pub fn with_word<'a>(
    alloc: Global,
    command: Command<'a>,
    id: &'a str,
) -> Result<Command<'a>, AllocError>
    ensures { IfOk result (λ c. app_of c ≡ with_rule (app_of command.entry) (one_word id.now)) }
{
    command.arg(Arg::new(alloc, id).required(true).action(ArgAction::Set))
}

/// A command that takes any number of words besides.
pub fn with_words<'a>(
    alloc: Global,
    command: Command<'a>,
    id: &'a str,
) -> Result<Command<'a>, AllocError>
    ensures { IfOk result (λ c. app_of c ≡ with_rule (app_of command.entry) (more_words id.now)) }
{
    command.arg(Arg::new(alloc, id).action(ArgAction::Append))
}
