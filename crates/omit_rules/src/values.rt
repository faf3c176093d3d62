// The values of settings, and the test of their regexps.
ghost use Rattle.std.specs.Prelude.{◌≡◌, IfOk, [], flat_map, map, option_copied, option_map};
ghost use Rattle.std.specs.Option.{unwrap_or};
ghost use Rattle.std.specs.List.{filter_map};
ghost use Rattle.toml.specs.Data.{as_str};
ghost use Rattle.toml.specs.View.{view, table_view};
ghost use Rattle.omit_rules.specs.Faults.{bad_regexps, bad_regexp, bad_omit_regexp, bad_in_guess};
ghost use Rattle.omit_rules.specs.Settings.{Tells};
ghost use Rattle.omit_rules.specs.Tables.{guess_table, text_at as text_at_key};
ghost use Rattle.omit_rules.specs.Values.{values_of, values_in, guess_of, regexp_in, kept_at as kept_at_key};

use crate::checking::in_guess;
use crate::settings::Guess;
use crate::tables::{guesses, items_at, number, text_at, value_at};
use crate::{Settings, SettingsFault};
use dired_text::{Memory, Text};
use emacs_regexp::{Ast, RegexpFault, read};
use std::alloc::Global;
use toml::{Table, Value};

// The settings that a table gives whose keys and types are right.
pub(crate) fn read_values(alloc: Global, table: &Table) -> Result<Settings, SettingsFault>
    ensures faults { Tells (bad_regexps (table_view table.now)) result }
    ensures values { IfOk result (λ settings. values_of settings ≡
        values_in (table_view table.now)) }
{
    let omit_regexp = read_omit_regexp(alloc, text_at(table, "omit_regexp"))?;
    let guesses = read_guesses(alloc, guesses(table))?;
    let omit_extensions = copy_texts(alloc, items_at(table, "omit_extensions"))?;
    Ok(Settings {
        omit_regexp,
        omit_extensions,
        kept_old: kept_at(table, "kept_old"),
        kept_new: kept_at(table, "kept_new"),
        guesses,
    })
}

fn read_omit_regexp(alloc: Global, text: Option<&str>) -> Result<Option<Ast>, SettingsFault>
    ensures faults { Tells (bad_omit_regexp (option_copied text.entry)) result }
    ensures regexp { IfOk result (λ ast. ast ≡ option_map regexp_in (option_copied text.entry)) }
{
    match text {
        Some(text) => {
            let key = Text::copy_of(alloc, "omit_regexp")?;
            Ok(Some(read_regexp(alloc, key, text)?))
        }
        None => Ok(None),
    }
}

// The regexp that stands at a key.
fn read_regexp(alloc: Global, key: Text, text: &str) -> Result<Ast, SettingsFault>
    ensures faults { Tells (bad_regexp key text.now) result }
    ensures regexp { IfOk result (λ ast. ast ≡ regexp_in text.now) }
{
    match read(alloc, text) {
        Ok(ast) => Ok(ast),
        Err(RegexpFault::Memory) => Err(SettingsFault::Memory),
        Err(fault) => Err(SettingsFault::BadRegexp(key, fault)),
    }
}

fn read_guesses(alloc: Global, guesses: &[Value]) -> Result<Vec<Guess>, SettingsFault>
    ensures faults { Tells (flat_map bad_in_guess (map view guesses.now)) result }
    ensures values { IfOk result (λ v. v.items ≡ map guess_of (map view guesses.now)) }
{
    let mut read = Vec::new(alloc);
    for guess in guesses {
        read.push(read_guess(alloc, guess)?)?;
    }
    Ok(read)
}

fn read_guess(alloc: Global, guess: &Value) -> Result<Guess, SettingsFault>
    ensures faults { Tells (bad_in_guess (view guess.now)) result }
    ensures value { IfOk result (λ read. read ≡ guess_of (view guess.now)) }
{
    let key = in_guess(alloc, "regexp")?;
    let regexp = read_regexp(alloc, key, text_of_guess(guess, "regexp"))?;
    let command = Text::copy_of(alloc, text_of_guess(guess, "command"))?;
    Ok(Guess { regexp, command })
}

// The text at a key of a guess, or the empty one where no text stands there.
fn text_of_guess<'a>(guess: &'a Value, key: &str) -> &'a str
    ensures { result.now ≡ unwrap_or (text_at_key key.now (guess_table (view guess.now))) [] }
{
    match guess.as_table() {
        Some(table) => text_at(table, key).unwrap_or(""),
        None => "",
    }
}

// The texts among some values.
fn copy_texts(alloc: Global, values: &[Value]) -> Result<Vec<Text>, Memory>
    ensures { IfOk result (λ v. v.items ≡ filter_map as_str (map view values.now)) }
{
    let mut texts = Vec::with_capacity(alloc, values.len())?;
    for value in values {
        if let Some(text) = value.as_str() {
            texts.push(Text::copy_of(alloc, text)?)?;
        }
    }
    Ok(texts)
}

// A number of versions that are kept, 2 where none is given.
fn kept_at(table: &Table, key: &str) -> u32
    ensures { result ≡ kept_at_key key.now (table_view table.now) }
{
    match value_at(table, key) {
        Some(value) => number(value).unwrap_or(2),
        None => 2,
    }
}
