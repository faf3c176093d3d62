// Emacs regexps: how they are spelled, where they are found, and what they rename.
use crate::answer::{field, word};
use case_tables::{RowFault, number_of, text_of};
use dired_text::{MemPatterns, Patterns, PatternsError, Text};
use emacs_regexp::{Ast, Finder, RegexpFault, found, groups, read, spell};
use regex::Regex;
use rename_regexp::{Renamer, Template, ToFault, read_to, renamed};
use std::alloc::Global;

/// What is answered to a row of regexps.
pub fn answer(alloc: Global, fields: &[&str]) -> Result<String, RowFault> {
    match fields {
        ["regexp", text] => spelled(alloc, text_of(alloc, text)?.as_str()),
        ["found", regexp, text] => {
            let (_, regex) = built(alloc, text_of(alloc, regexp)?.as_str())?;
            let is_found = found(alloc, &regex, text_of(alloc, text)?.as_str())?;
            Ok(word(alloc, if is_found { "yes" } else { "no" })?)
        }
        ["template", to, groups] => {
            template(alloc, text_of(alloc, to)?.as_str(), number_of(groups)?)
        }
        ["rename", regexp, to, name] => renamed_by(
            alloc,
            text_of(alloc, regexp)?.as_str(),
            text_of(alloc, to)?.as_str(),
            text_of(alloc, name)?.as_str(),
        ),
        _ => Err(RowFault::Bad),
    }
}

/// What is answered to a row that asks of many names.
pub fn answer_of(alloc: Global, fields: &[&str]) -> Result<String, RowFault> {
    match fields {
        ["found-of", regexp, count] => found_of(alloc, text_of(alloc, regexp)?.as_str(), count),
        ["rename-of", regexp, to, count] => renamed_of(
            alloc,
            text_of(alloc, regexp)?.as_str(),
            text_of(alloc, to)?.as_str(),
            count,
        ),
        _ => Err(RowFault::Bad),
    }
}

// The pattern, and how many groups it has that are numbered.
fn spelled(alloc: Global, text: &str) -> Result<String, RowFault> {
    match read(alloc, text) {
        Ok(ast) => {
            let pattern = field(alloc, spell(alloc, &ast)?.as_str())?;
            let count = groups(&ast);
            Ok(format!(in alloc; "{pattern} groups {count}")?)
        }
        Err(RegexpFault::Memory) => Err(RowFault::Memory),
        Err(fault) => Ok(format!(in alloc; "refused: {fault}")?),
    }
}

// A regexp that is to be one, and its pattern.
fn built(alloc: Global, text: &str) -> Result<(Ast, Regex), RowFault> {
    let ast = match read(alloc, text) {
        Ok(ast) => ast,
        Err(RegexpFault::Memory) => return Err(RowFault::Memory),
        Err(_) => return Err(RowFault::Bad),
    };
    let mut patterns = MemPatterns::new(alloc, Vec::new(alloc))?;
    match patterns.build(alloc, spell(alloc, &ast)?.as_str()) {
        Ok(regex) => Ok((ast, regex)),
        Err(PatternsError::Refused) => Err(RowFault::Bad),
        Err(PatternsError::Memory) => Err(RowFault::Memory),
    }
}

fn template(alloc: Global, to: &str, groups: u64) -> Result<String, RowFault> {
    let Ok(groups) = u32::try_from(groups) else {
        return Err(RowFault::Bad);
    };
    match read_to(alloc, to, groups) {
        Ok(_) => Ok(word(alloc, "ok")?),
        Err(ToFault::Memory) => Err(RowFault::Memory),
        Err(fault) => Ok(format!(in alloc; "refused: {fault}")?),
    }
}

fn renamed_by(alloc: Global, regexp: &str, to: &str, name: &str) -> Result<String, RowFault> {
    let (ast, regex) = built(alloc, regexp)?;
    let template = built_template(alloc, to, &ast)?;
    match renamed(alloc, &regex, &template, name)? {
        Some(text) => Ok(field(alloc, text.as_str())?),
        None => Ok(word(alloc, "not found")?),
    }
}

// A template that is to be one for a regexp.
fn built_template(alloc: Global, to: &str, regexp: &Ast) -> Result<Template, RowFault> {
    match read_to(alloc, to, groups(regexp)) {
        Ok(template) => Ok(template),
        Err(ToFault::Memory) => Err(RowFault::Memory),
        Err(_) => Err(RowFault::Bad),
    }
}

// In how many of so many names, `file0` and so on, a regexp is found. One search serves them all.
fn found_of(alloc: Global, regexp: &str, count: &str) -> Result<String, RowFault> {
    let (_, regex) = built(alloc, regexp)?;
    let mut finder = Finder::new(alloc, &regex)?;
    let mut found: u32 = 0;
    for number in 0..count_of(count)? {
        let name = format!(in alloc; "file{number}")?;
        if finder.found(name.as_str()) {
            found = found.saturating_add(1);
        }
    }
    Ok(format!(in alloc; "{found}")?)
}

// How many of so many names are renamed, and the new name of the last of them. One search serves them all.
fn renamed_of(alloc: Global, regexp: &str, to: &str, count: &str) -> Result<String, RowFault> {
    let (ast, regex) = built(alloc, regexp)?;
    let template = built_template(alloc, to, &ast)?;
    let mut renamer = Renamer::new(alloc, &regex, &template)?;
    let mut renamed: u32 = 0;
    let mut last = Text::copy_of(alloc, "")?;
    for number in 0..count_of(count)? {
        let name = format!(in alloc; "file{number}")?;
        if let Some(text) = renamer.renamed(name.as_str())? {
            renamed = renamed.saturating_add(1);
            last = text;
        }
    }
    let last = field(alloc, last.as_str())?;
    Ok(format!(in alloc; "{renamed} {last}")?)
}

fn count_of(text: &str) -> Result<u32, RowFault> {
    match text.parse::<u32>() {
        Ok(count) => Ok(count),
        Err(_) => Err(RowFault::Bad),
    }
}
