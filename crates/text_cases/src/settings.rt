// Settings, and the rules that they give.
use crate::answer::{field, word};
use case_tables::{RowFault, text_of};
use dired_text::{MemPatterns, PatternsError, Text};
use omit_rules::{Rules, SettingsFault, read_settings};
use std::alloc::Global;

/// Reads settings, and keeps their rules; answers how many versions are kept, or the fault.
pub fn read(alloc: Global, text: &str, rules: &mut Option<Rules>) -> Result<String, RowFault> {
    match read_settings(alloc, text_of(alloc, text)?.as_str()) {
        Ok(settings) => {
            let mut patterns = MemPatterns::new(alloc, Vec::new(alloc))?;
            *rules = match Rules::new(alloc, &mut patterns, &settings) {
                Ok(rules) => Some(rules),
                Err(PatternsError::Refused) => return Err(RowFault::Bad),
                Err(PatternsError::Memory) => return Err(RowFault::Memory),
            };
            let (old, new) = (settings.kept_old(), settings.kept_new());
            Ok(format!(in alloc; "kept {old} {new}")?)
        }
        Err(fault) => refused(alloc, fault),
    }
}

fn refused(alloc: Global, fault: SettingsFault) -> Result<String, RowFault> {
    match fault {
        SettingsFault::NotToml => Ok(word(alloc, "refused: no TOML")?),
        SettingsFault::UnknownKey(key) => {
            let key = field(alloc, key.as_str())?;
            Ok(format!(in alloc; "refused: unknown key {key}")?)
        }
        SettingsFault::WrongType(key) => {
            let key = field(alloc, key.as_str())?;
            Ok(format!(in alloc; "refused: wrong type {key}")?)
        }
        SettingsFault::BadRegexp(key, fault) => {
            let key = field(alloc, key.as_str())?;
            Ok(format!(in alloc; "refused: bad regexp {key}, {fault}")?)
        }
        SettingsFault::Memory => Err(RowFault::Memory),
    }
}

/// What the rules say: whether a name is omitted, how many of many are, and the command that is guessed for files of these names.
pub fn answer(alloc: Global, rules: &Option<Rules>, fields: &[&str]) -> Result<String, RowFault> {
    let Some(rules) = rules else {
        return Err(RowFault::Bad);
    };
    match fields {
        ["omitted", name, mark @ ("marked" | "plain")] => {
            let is_omitted = rules.omitted(text_of(alloc, name)?.as_str(), *mark == "marked")?;
            Ok(word(alloc, if is_omitted { "yes" } else { "no" })?)
        }
        ["omitted-of", count] => counted(alloc, rules, count),
        ["guess", names @ ..] => guessed(alloc, rules, names),
        _ => Err(RowFault::Bad),
    }
}

// How many of so many names, `file0` and so on, are omitted. One search serves them all.
fn counted(alloc: Global, rules: &Rules, count: &str) -> Result<String, RowFault> {
    let Ok(count) = count.parse::<u32>() else {
        return Err(RowFault::Bad);
    };
    let mut omitter = rules.omitter()?;
    let mut omitted: u32 = 0;
    for number in 0..count {
        let name = format!(in alloc; "file{number}")?;
        if omitter.omits(name.as_str(), false) {
            omitted = omitted.saturating_add(1);
        }
    }
    Ok(format!(in alloc; "{omitted}")?)
}

fn guessed(alloc: Global, rules: &Rules, words: &[&str]) -> Result<String, RowFault> {
    let mut names: Vec<Text> = Vec::new(alloc);
    for word in words {
        names.push(text_of(alloc, word)?)?;
    }
    match rules.guess(&names)? {
        Some(command) => Ok(field(alloc, command.as_str())?),
        None => Ok(word(alloc, "none")?),
    }
}
