// What settings read from a TOML table.
ghost use Rattle.std.specs.Prelude.{◌≡◌, ◌≤◌, IfSome, codes, map, option_map, option_and_then};
ghost use Rattle.toml.specs.Data.{get_member, as_array};
ghost use Rattle.toml.specs.View.{view, table_view};
ghost use Rattle.omit_rules.specs.Tables.{guesses_in, items_of, text_at as text_at_key, number_of};

use toml::{Table, Value};

// The value at a key.
pub(crate) fn value_at<'a>(table: &'a Table, key: &str) -> Option<&'a Value>
    ensures { option_map (λ v. view v.now) result ≡ get_member key.now (table_view table.now) }
{
    table.get(key)
}

// The text at a key, where a text stands there.
pub(crate) fn text_at<'a>(table: &'a Table, key: &str) -> Option<&'a str>
    ensures { option_map (λ t. t.now) result ≡ text_at_key key.now (table_view table.now) }
{
    match value_at(table, key) {
        Some(value) => value.as_str(),
        None => None,
    }
}

// The items of the array at a key, and none where no array stands there.
pub(crate) fn items_at<'a>(table: &'a Table, key: &str) -> &'a [Value]
    ensures { map view result.now ≡
        items_of (option_and_then as_array (get_member key.now (table_view table.now))) }
{
    match value_at(table, key) {
        Some(value) => items(value),
        None => &[],
    }
}

// The items of an array, and none of what is no array.
fn items(value: &Value) -> &[Value]
    ensures { map view result.now ≡ items_of (as_array (view value.now)) }
{
    match value.as_array() {
        Some(array) => array.as_slice(),
        None => &[],
    }
}

// The guesses that a table of settings lists, each as it stands there.
pub(crate) fn guesses(table: &Table) -> &[Value]
    ensures { map view result.now ≡ guesses_in (table_view table.now) }
{
    items_at(table, "guess")
}

// A number of versions, from 0 to 1,000,000.
pub(crate) fn number(value: &Value) -> Option<u32>
    ensures { result ≡ number_of (view value.now) }
{
    match value.as_integer() {
        Some(number) if 0 <= number && number <= 1_000_000 => Some(number as u32),
        _ => None,
    }
}
