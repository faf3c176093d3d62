// The arguments of commands, each by the number of its line and its text.
ghost use Rattle.std.specs.Prelude.{◌≡◌, ◌≤◌, IfSome};
ghost use Rattle.dired_text.specs.Answers.{IsOrMemory};
ghost use Rattle.script_words.specs.declared.fault.CommandFault.TheVariants.{Memory as memory};
ghost use Rattle.script_words.specs.Arguments as argument;
ghost use Rattle.script_words.specs.Arguments.{IsPredicate, digit_of, four_digits, groups_of, octal_of};

use crate::{CommandFault, ScriptCause};
use dired_text::{EscapeError, NameError, Path, Text, resolve, unescape};
use emacs_regexp::{Ast, RegexpFault, groups};
use find_words::{FindFault, Predicate, read_find};
use listing_text::{Switches, read_switches};
use mark_table::is_mark;
use rename_regexp::{Template, ToFault, read_to};
use std::alloc::Global;

// A refusal of the argument on a line.
fn bad_argument(line: u32) -> CommandFault
    ensures { result ≡ CommandFault.Bad line ScriptCause.BadArgument }
{
    CommandFault::Bad {
        line,
        cause: ScriptCause::BadArgument,
    }
}

// The text that an escaped one stands for.
fn plain_text(alloc: Global, line: u32, text: &str) -> Result<Text, CommandFault>
    ensures { IsOrMemory memory (argument.plain_text line text.now) result }
{
    match unescape(alloc, text) {
        Ok(plain) => Ok(plain),
        Err(EscapeError::BadEscape(_)) => Err(bad_argument(line)),
        Err(EscapeError::Memory) => Err(CommandFault::Memory),
    }
}

// A path from the root.
pub(crate) fn path(alloc: Global, line: u32, text: &str) -> Result<Path, CommandFault>
    ensures { IsOrMemory memory (argument.path line text.now) result }
{
    let plain = plain_text(alloc, line, text)?;
    match resolve(alloc, &Path::root(alloc), plain.as_str()) {
        Ok(path) => Ok(path),
        Err(NameError::Memory) => Err(CommandFault::Memory),
        Err(_) => Err(bad_argument(line)),
    }
}

// The path of a directory, of which `.` alone is the root.
pub(crate) fn directory(alloc: Global, line: u32, text: &str) -> Result<Path, CommandFault>
    ensures { IsOrMemory memory (argument.directory line text.now) result }
{
    if text == "." {
        return Ok(Path::root(alloc));
    }
    path(alloc, line, text)
}

// One character that may be a mark.
pub(crate) fn mark(line: u32, text: &str) -> Result<u8, CommandFault>
    ensures { result ≡ argument.mark line text.now }
{
    match text.as_bytes() {
        [byte] if is_mark(*byte) => Ok(*byte),
        _ => Err(bad_argument(line)),
    }
}

// A text that isn't empty.
pub(crate) fn ending(alloc: Global, line: u32, text: &str) -> Result<Text, CommandFault>
    ensures { IsOrMemory memory (argument.ending line text.now) result }
{
    if text.is_empty() {
        return Err(bad_argument(line));
    }
    Ok(Text::copy_of(alloc, text)?)
}

// Permission bits as 1 to 4 octal digits.
pub(crate) fn mode(line: u32, text: &str) -> Result<u16, CommandFault>
    ensures { result ≡ argument.mode line text.now }
{
    match octal(text.as_bytes()) {
        Some(mode) => Ok(mode),
        None => Err(bad_argument(line)),
    }
}

fn octal(text: &[u8]) -> Option<u16>
    ensures { result ≡ octal_of text.now }
{
    match text {
        [d] => four(Some(0), Some(0), Some(0), digit(*d)),
        [c, d] => four(Some(0), Some(0), digit(*c), digit(*d)),
        [b, c, d] => four(Some(0), digit(*b), digit(*c), digit(*d)),
        [a, b, c, d] => four(digit(*a), digit(*b), digit(*c), digit(*d)),
        [] | [_, _, _, _, _, ..] => None,
    }
}

// The number of four digits, where each is one.
fn four(a: Option<u16>, b: Option<u16>, c: Option<u16>, d: Option<u16>) -> Option<u16>
    requires a { IfSome a (λ digit. digit ≤ 7) }
    requires b { IfSome b (λ digit. digit ≤ 7) }
    requires c { IfSome c (λ digit. digit ≤ 7) }
    requires d { IfSome d (λ digit. digit ≤ 7) }
    ensures { result ≡ four_digits a b c d }
{
    let Some(a) = a else { return None };
    let Some(b) = b else { return None };
    let Some(c) = c else { return None };
    let Some(d) = d else { return None };
    Some(512 * a + 64 * b + 8 * c + d)
}

#[tactic(auto, unfolding(crate::specs::Arguments::digit_of))]
fn digit(byte: u8) -> Option<u16>
    ensures value { result ≡ digit_of byte }
    ensures most { IfSome result (λ digit. digit ≤ 7) }
{
    if 48 <= byte && byte <= 55 {
        Some((byte - 48) as u16)
    } else {
        None
    }
}

// The switches of a listing.
pub(crate) fn switches(line: u32, text: &str) -> Result<Switches, CommandFault>
    ensures { result ≡ argument.switches line text.now }
{
    match read_switches(text) {
        Some(switches) => Ok(switches),
        None => Err(bad_argument(line)),
    }
}

// A regexp.
pub(crate) fn regexp(alloc: Global, line: u32, text: &str) -> Result<Ast, CommandFault>
    ensures { IsOrMemory memory (argument.regexp line text.now) result }
{
    match emacs_regexp::read(alloc, text) {
        Ok(ast) => Ok(ast),
        Err(RegexpFault::Memory) => Err(CommandFault::Memory),
        Err(fault) => Err(CommandFault::Bad {
            line,
            cause: ScriptCause::BadRegexp(fault),
        }),
    }
}

// What the first match of this regexp is replaced by.
pub(crate) fn template(
    alloc: Global,
    ast: &Ast,
    line: u32,
    text: &str,
) -> Result<Template, CommandFault>
    ensures { IsOrMemory memory (argument.template (groups_of ast.now) line text.now) result }
{
    match read_to(alloc, text, groups(ast)) {
        Ok(template) => Ok(template),
        Err(ToFault::Memory) => Err(CommandFault::Memory),
        Err(fault) => Err(CommandFault::Bad {
            line,
            cause: ScriptCause::BadTo(fault),
        }),
    }
}

// A predicate on files.
pub(crate) fn predicate(alloc: Global, line: u32, text: &str) -> Result<Predicate, CommandFault>
    ensures { IsPredicate line text.now result }
{
    match read_find(alloc, text) {
        Ok(predicate) => Ok(predicate),
        Err(FindFault::Bad { word }) => Err(CommandFault::Bad {
            line,
            cause: ScriptCause::BadFind(FindFault::Bad { word }),
        }),
        Err(FindFault::Memory) => Err(CommandFault::Memory),
    }
}
