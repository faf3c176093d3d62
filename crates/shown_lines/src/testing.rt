// The shown lines that pass a test.
ghost use Rattle.std.specs.Prelude.{◌≡◌, IfOk, filter, is_some};
ghost use Rattle.std.specs.FinMap.{get};
ghost use Rattle.std.specs.Option.{option_map};
ghost use Rattle.regex.specs.Strings.{matcher_pattern, regex_pattern};
ghost use Rattle.dired_text.specs.Paths.{Names};
ghost use Rattle.mark_table.specs.PathMarks.{is_among};
ghost use Rattle.mark_table.specs.Excess.{excess};
ghost use Rattle.shown_lines.specs.Named.{named, passes_by};
ghost use Rattle.shown_lines.specs.Sections.{current_paths};
ghost use Rattle.shown_lines.specs.Tests.{finds as finds_in, has_x, is_auto_save as is_auto_save_name, is_backup as is_backup_name, passing_of, paths};

use crate::Entry;
use crate::omitting::last_name;
use crate::sections::paths_in_current;
use dired_text::{Memory, Path};
use mark_table::{Marks, excess_backups, toggled_at_each_path};
use regex::{Matcher, Regex};
use script_words::Test;
use section_buffer::Buffer;
use std::alloc::Global;
use tree_core::Kind;

/// How many of the oldest and how many of the newest numeric backups of a file are kept.
#[derive(Clone, Copy, Debug, PartialEq, Eq)]
pub struct KeptVersions {
    pub oldest: u32,
    pub newest: u32,
}

// ---- names

fn is_backup(name: &str) -> bool
    ensures { result ≡ is_backup_name name.now }
{
    name.as_bytes().ends_with(b"~")
}

fn is_auto_save(name: &str) -> bool
    ensures { result ≡ is_auto_save_name name.now }
{
    let bytes = name.as_bytes();
    bytes.len() >= 2 && bytes.starts_with(b"#") && bytes.ends_with(b"#")
}

// What searches names for a pattern, where there is one.
fn matcher_of<'r>(alloc: Global, pattern: Option<&'r Regex>) -> Result<Option<Matcher<'r>>, Memory>
    ensures { IfOk result (λ matcher. option_map matcher_pattern matcher ≡
        option_map (λ regex. regex_pattern regex.now) pattern.entry) }
{
    match pattern {
        None => Ok(None),
        Some(pattern) => Ok(Some(pattern.matcher(alloc)?)),
    }
}

fn finds(matcher: &mut Option<Matcher<'_>>, name: &str) -> bool
    ensures found { result ≡ finds_in (option_map matcher_pattern matcher.old) name.now }
    ensures same { option_map matcher_pattern matcher.new ≡
        option_map matcher_pattern matcher.old }
{
    match matcher {
        None => false,
        Some(matcher) => matcher.is_match(name),
    }
}

// ---- paths

fn copies(alloc: Global, entries: &[Entry]) -> Result<Vec<Path>, Memory>
    ensures { IfOk result (λ copies. copies.items ≡ paths entries.now) }
{
    let mut copies = Vec::with_capacity(alloc, entries.len())?;
    for entry in entries {
        copies.push(entry.path.copy()?)?;
    }
    Ok(copies)
}

// The paths that pass a test because they are in a section or in excess.
fn named_paths(
    alloc: Global,
    entries: &[Entry],
    test: &Test,
    kept: KeptVersions,
    buffer: &Buffer,
    current: Option<&Path>,
) -> Result<Vec<Path>, Memory>
    ensures { IfOk result (λ found. found.items ≡ named
        (current_paths (option_map (λ path. path.now) current.entry) buffer.now.sections)
        (excess kept.oldest kept.newest (paths entries.now)) test.now) }
{
    match test {
        Test::InSection => paths_in_current(alloc, buffer, current),
        Test::IsExcess => {
            let shown = copies(alloc, entries)?;
            excess_backups(alloc, &shown, kept.oldest, kept.newest)
        }
        Test::IsDirectory | Test::IsLink | Test::IsExecutable => Ok(Vec::new(alloc)),
        Test::IsBackup | Test::IsAutoSave => Ok(Vec::new(alloc)),
        Test::EndsWith(_) | Test::NameMatches => Ok(Vec::new(alloc)),
    }
}

// A table in which each of these paths has a mark.
fn table_of(alloc: Global, paths: &[Path]) -> Result<Marks, Memory>
    ensures { IfOk result (λ table. (p : Names) → is_some (get table.marks p) ≡
        is_among p paths.now) }
{
    let mut table = Marks::new(alloc)?;
    toggled_at_each_path(&table, paths);
    table.toggle(paths)?;
    Ok(table)
}

// ---- tests

fn passes(test: &Test, entry: &Entry, table: &Marks, matcher: &mut Option<Matcher<'_>>) -> bool
    ensures passes { result ≡ passes_by (option_map matcher_pattern matcher.old)
        (λ p. is_some (get table.now.marks p)) test.now entry.now }
    ensures same { option_map matcher_pattern matcher.new ≡
        option_map matcher_pattern matcher.old }
{
    let name = last_name(entry.path.names());
    match test {
        Test::IsDirectory => entry.kind == Kind::Dir,
        Test::IsLink => entry.kind == Kind::Link,
        Test::IsExecutable => entry.kind == Kind::File && entry.mode & 0o111 != 0,
        Test::InSection | Test::IsExcess => table.get(&entry.path).is_some(),
        Test::EndsWith(text) => name.as_bytes().ends_with(text.as_str().as_bytes()),
        Test::IsBackup => entry.kind != Kind::Dir && is_backup(name),
        Test::IsAutoSave => entry.kind != Kind::Dir && is_auto_save(name),
        Test::NameMatches => finds(matcher, name),
    }
}

// The paths of the entries that pass by this table.
fn passing_by(
    alloc: Global,
    entries: &[Entry],
    test: &Test,
    table: &Marks,
    matcher: &mut Option<Matcher<'_>>,
) -> Result<Vec<Path>, Memory>
    ensures { IfOk result (λ found. found.items ≡ paths (filter
        (passes_by (option_map matcher_pattern matcher.old)
        (λ p. is_some (get table.now.marks p)) test.now) entries.now)) }
{
    let mut found = Vec::new(alloc);
    for entry in entries {
        if passes(test, entry, table, matcher) {
            found.push(entry.path.copy()?)?;
        }
    }
    Ok(found)
}

/// The paths of the entries that pass a test, in their order. The entries are those of [`shown_lines`](crate::shown_lines).
/// A test for a section is for all lines of the section that has the current path, shown or not, and where there is none
/// of the root's. A test for excess is for numeric backups among the entries, where so many are kept. A test by a pattern
/// is for last names in which it is found (GNU Emacs Manual, "Marks vs Flags").
///
/// # Errors
/// Want of memory.
pub fn passing(
    alloc: Global,
    entries: &[Entry],
    test: &Test,
    pattern: Option<&Regex>,
    kept: KeptVersions,
    buffer: &Buffer,
    current: Option<&Path>,
) -> Result<Vec<Path>, Memory>
    ensures { IfOk result (λ found. found.items ≡
        passing_of (option_map (λ regex. regex_pattern regex.now) pattern.entry)
        (current_paths (option_map (λ path. path.now) current.entry) buffer.now.sections)
        (excess kept.oldest kept.newest (paths entries.now)) test.now entries.now) }
{
    let named = named_paths(alloc, entries, test, kept, buffer, current)?;
    let table = table_of(alloc, &named)?;
    let mut matcher = matcher_of(alloc, pattern)?;
    passing_by(alloc, entries, test, &table, &mut matcher)
}
