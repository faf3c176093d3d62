// Settings as texts write them.
ghost use Rattle.omit_rules.specs.Settings.{settings_of, Gives};

use crate::checking::{check_keys, check_types};
use crate::values::read_values;
use crate::{Settings, SettingsFault};
use std::alloc::Global;

/// The settings that a text writes in TOML 1.1, a table with some of these keys: `omit_regexp`, a text; `omit_extensions`,
/// a list of texts; `kept_old` and `kept_new`, whole numbers from 0 to 1,000,000; and `guess`, a list of tables with
/// exactly `regexp` and `command`, both texts. Where they are absent there is no regexp, no extension, 2, 2 and no guess.
///
/// # Errors
/// `NotToml` where `toml` refuses the text. Otherwise `UnknownKey`, `WrongType` and `BadRegexp` are tested in this order,
/// each over the keys in the order of their bytes and then over the guesses in turn.
pub fn read_settings(alloc: Global, text: &str) -> Result<Settings, SettingsFault>
    ensures { Gives (settings_of text.now) result }
{
    let table = match toml::table_from_str(alloc, text) {
        Ok(table) => table,
        Err(error) if error.is_memory() => return Err(SettingsFault::Memory),
        Err(_) => return Err(SettingsFault::NotToml),
    };
    check_keys(alloc, &table)?;
    check_types(alloc, &table)?;
    read_values(alloc, &table)
}
