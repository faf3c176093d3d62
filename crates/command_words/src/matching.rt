// Words matched with the definition of a command.
ghost use Rattle.std.specs.Prelude.{◌≡◌, ◌⊎◌, ◌≢◌, true, map, string_bytes, IfOk, IfErr, [], option_map};
ghost use Rattle.clap.specs.Words.{app_of, fault_of, matches_of, rows_of, found_of, first_of, all_of, is_simple_and_free};
ghost use Rattle.command_words.specs.declared.command.WordsFault.TheVariants.{Usage, Memory as memory};
ghost use Rattle.command_words.specs.Commands.{is_set as is_set_in};

use crate::WordsFault;
use clap::{ArgMatches, Command};

/// What words are to a command: its arguments' values.
///
/// # Errors
/// `Usage` exactly where the command's definition refuses the words.
pub fn matched<'a>(command: Command<'a>, words: &'a [String]) -> Result<ArgMatches<'a>, WordsFault>
    requires simple { is_simple_and_free (app_of command) ≡ true }
    ensures rows { IfOk result (λ m. (fault_of (app_of command.entry) (map string_bytes words.now)
        ≡ [])
        × (rows_of (found_of m) ≡ matches_of (app_of command.entry) (map string_bytes words.now))) }
    ensures refused { IfErr result
        (λ e. (e ≡ memory) ⊎ ((e ≡ Usage) ×
        (fault_of (app_of command.entry) (map string_bytes words.now) ≢ []))) }
{
    match command.try_get_matches_from(words) {
        Ok(matches) => Ok(matches),
        Err(error) => Err(WordsFault::from(error)),
    }
}

/// The first value of an argument.
#[tactic(auto, using(crate::proofs::WordLemmas::first_by_rows))]
pub fn first_value<'a>(matches: &ArgMatches<'a>, id: &str) -> Option<&'a str>
    ensures { option_map (λ v. v.now) result ≡ first_of id.now (rows_of (found_of matches.now)) }
{
    matches.get_str(id)
}

/// The values of an argument.
#[tactic(auto, using(crate::proofs::WordLemmas::all_by_rows))]
pub fn all_values<'m, 'a>(matches: &'m ArgMatches<'a>, id: &str) -> Option<&'m [&'a str]>
    ensures { option_map (λ vs. map (λ v. v.now) vs.now) result ≡
        all_of id.now (rows_of (found_of matches.now)) }
{
    matches.get_raw(id)
}

/// Whether a flag was given.
pub fn is_set(matches: &ArgMatches<'_>, id: &str) -> bool
    ensures { result ≡ is_set_in id.now (rows_of (found_of matches.now)) }
{
    match first_value(matches, id) {
        Some(value) => value == "true",
        None => false,
    }
}
