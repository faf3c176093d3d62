// The tests of keys and of types.
ghost use Rattle.std.specs.Prelude.{◌≡◌, IfOk, [], ◌∷◌, if◌then◌else◌, flat_map, map};
ghost use Rattle.omit_rules.specs.declared.fault.SettingsFault.TheVariants.{WrongType};
ghost use Rattle.std.specs.List.{list_all};
ghost use Rattle.toml.specs.View.{view, table_view};
ghost use Rattle.omit_rules.specs.Faults.{unknown_keys, unknown_setting, unknown_of_guess, unknown_in_guess, is_setting as is_setting_key, is_of_guess, in_guess as in_guess_key, wrong_types, wrong_settings, wrong_in_guess, wrong_at, no_text_at, is_text, is_array, are_texts as are_texts_data, is_kept_number};
ghost use Rattle.omit_rules.specs.Settings.{Tells};
ghost use Rattle.omit_rules.specs.Tables.{guess_table, keys_of};

use crate::SettingsFault;
use crate::tables::{guesses, number, text_at, value_at};
use dired_text::{Memory, Text};
use std::alloc::Global;
use toml::{Table, Value};

// ---- keys

// Tests that settings have each key.
pub(crate) fn check_keys(alloc: Global, table: &Table) -> Result<(), SettingsFault>
    ensures { Tells (unknown_keys (table_view table.now)) result }
{
    check_setting_keys(alloc, table)?;
    check_guesses_keys(alloc, guesses(table))
}

fn check_setting_keys(alloc: Global, table: &Table) -> Result<(), SettingsFault>
    ensures { Tells (flat_map unknown_setting (keys_of (table_view table.now))) result }
{
    for key in table.keys() {
        if !is_setting(key.as_str()) {
            return Err(SettingsFault::UnknownKey(Text::copy_of(alloc, key)?));
        }
    }
    Ok(())
}

fn is_setting(key: &str) -> bool
    ensures { result ≡ is_setting_key key.now }
{
    match key {
        "guess" | "kept_new" | "kept_old" | "omit_extensions" | "omit_regexp" => true,
        _ => false,
    }
}

fn check_guesses_keys(alloc: Global, guesses: &[Value]) -> Result<(), SettingsFault>
    ensures { Tells (flat_map unknown_in_guess (map view guesses.now)) result }
{
    for guess in guesses {
        if let Some(table) = guess.as_table() {
            check_guess_keys(alloc, table)?;
        }
    }
    Ok(())
}

fn check_guess_keys(alloc: Global, table: &Table) -> Result<(), SettingsFault>
    ensures { Tells (flat_map unknown_of_guess (keys_of (table_view table.now))) result }
{
    for key in table.keys() {
        if !is_guess_key(key.as_str()) {
            return Err(SettingsFault::UnknownKey(in_guess(alloc, key)?));
        }
    }
    Ok(())
}

fn is_guess_key(key: &str) -> bool
    ensures { result ≡ is_of_guess key.now }
{
    match key {
        "command" | "regexp" => true,
        _ => false,
    }
}

// How a key of a guess is named.
pub(crate) fn in_guess(alloc: Global, key: &str) -> Result<Text, Memory>
    ensures { IfOk result (λ t. t ≡ in_guess_key key.now) }
{
    let mut name = String::from_str(alloc, "guess.")?;
    name.push_str(key)?;
    Ok(Text::from_string(name))
}

// ---- types

// Tests that each value has the type of its key.
pub(crate) fn check_types(alloc: Global, table: &Table) -> Result<(), SettingsFault>
    ensures { Tells (wrong_types (table_view table.now)) result }
{
    check_setting_types(alloc, table)?;
    check_guesses_types(alloc, guesses(table))
}

fn check_setting_types(alloc: Global, table: &Table) -> Result<(), SettingsFault>
    ensures { Tells (wrong_settings (table_view table.now)) result }
{
    check_array(alloc, table, "guess")?;
    check_number(alloc, table, "kept_new")?;
    check_number(alloc, table, "kept_old")?;
    check_texts(alloc, table, "omit_extensions")?;
    check_text(alloc, table, "omit_regexp")
}

fn check_array(alloc: Global, table: &Table, key: &str) -> Result<(), SettingsFault>
    ensures { Tells (wrong_at key.now is_array (table_view table.now)) result }
{
    match value_at(table, key) {
        Some(value) => check(alloc, key, value.is_array()),
        None => Ok(()),
    }
}

fn check_number(alloc: Global, table: &Table, key: &str) -> Result<(), SettingsFault>
    ensures { Tells (wrong_at key.now is_kept_number (table_view table.now)) result }
{
    match value_at(table, key) {
        Some(value) => check(alloc, key, number(value).is_some()),
        None => Ok(()),
    }
}

fn check_texts(alloc: Global, table: &Table, key: &str) -> Result<(), SettingsFault>
    ensures { Tells (wrong_at key.now are_texts_data (table_view table.now)) result }
{
    match value_at(table, key) {
        Some(value) => check(alloc, key, are_texts(value)),
        None => Ok(()),
    }
}

fn check_text(alloc: Global, table: &Table, key: &str) -> Result<(), SettingsFault>
    ensures { Tells (wrong_at key.now is_text (table_view table.now)) result }
{
    match value_at(table, key) {
        Some(value) => check(alloc, key, value.is_str()),
        None => Ok(()),
    }
}

// Whether a value is an array of texts.
fn are_texts(value: &Value) -> bool
    ensures { result ≡ are_texts_data (view value.now) }
{
    match value.as_array() {
        Some(array) => are_all_texts(array.as_slice()),
        None => false,
    }
}

fn are_all_texts(values: &[Value]) -> bool
    ensures { result ≡ list_all (λ value. is_text (view value)) values.now }
{
    values.iter().all(|value| value.is_str())
}

// The fault of a key whose value has another type.
fn check(alloc: Global, key: &str, is_right: bool) -> Result<(), SettingsFault>
    ensures { Tells (if is_right then [] else WrongType key.now ∷ []) result }
{
    if is_right {
        Ok(())
    } else {
        Err(SettingsFault::WrongType(Text::copy_of(alloc, key)?))
    }
}

fn check_guesses_types(alloc: Global, guesses: &[Value]) -> Result<(), SettingsFault>
    ensures { Tells (flat_map wrong_in_guess (map view guesses.now)) result }
{
    for guess in guesses {
        check_guess_types(alloc, guess)?;
    }
    Ok(())
}

fn check_guess_types(alloc: Global, guess: &Value) -> Result<(), SettingsFault>
    ensures { Tells (wrong_in_guess (view guess.now)) result }
{
    match guess.as_table() {
        Some(table) => {
            check_guess_text(alloc, table, "command")?;
            check_guess_text(alloc, table, "regexp")
        }
        None => Err(SettingsFault::WrongType(Text::copy_of(alloc, "guess")?)),
    }
}

fn check_guess_text(alloc: Global, table: &Table, key: &str) -> Result<(), SettingsFault>
    ensures { Tells (no_text_at key.now (table_view table.now)) result }
{
    match text_at(table, key) {
        Some(_) => Ok(()),
        None => Err(SettingsFault::WrongType(in_guess(alloc, key)?)),
    }
}
