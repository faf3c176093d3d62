// The commands that a text and some file names make.
ghost use Rattle.std.specs.Prelude.{◌≡◌, ◌⊎◌, ◌∷◌, ◌++◌, [], Err, IfOk, MatchResult, Ok, OnOk, map};
ghost use Rattle.std.specs.List.{list_all, list_any};
ghost use Rattle.std.specs.String.{string_bytes};
ghost use Rattle.shell_subst.specs.declared.substituting.SubstFault.TheVariants.{Memory as memory};
ghost use Rattle.shell_subst.specs.Quoting.{quoted};
ghost use Rattle.shell_subst.specs.Commands.{filled, in_a_row as in_a_row_of, is_all_names, is_blank as is_blank_byte, is_one_name, pieces, runs as runs_of, substituted};

use crate::quote;
use crate::scanning::{Token, is_blank, next_token};
use dired_text::{Memory, Text};
use std::alloc::Global;

/// Why a text and some names make no commands.
#[derive(Clone, Copy, Debug, PartialEq, Eq)]
pub enum SubstFault {
    /// The text has marks for all names and marks for one.
    Both,
    /// There are no names.
    NoFiles,
    /// The text is only whitespace.
    EmptyCommand,
    /// An allocation was refused.
    Memory,
}

// The marks that a command text has.
#[derive(Clone, Copy, Debug)]
struct Marks {
    all_names: bool,
    one_name: bool,
}

/// The texts to hand to the shell, one for each run. Whitespace is space and tab.
///
/// A `*` alone between whitespace stands for all names, quoted, with one space between: there is one run. A `?` alone
/// between whitespace, or `` `?` `` anywhere, stands for one name, quoted: there is one run for each name. With neither
/// there is one run for each name, which stands at the end behind a space. Both ends of the text count as whitespace.
///
/// # Errors
/// The first of these that holds: `EmptyCommand` where the text is only whitespace, `NoFiles` where there are no names,
/// `Both` where the text has marks of both kinds.
pub fn commands(alloc: Global, text: &str, names: &[Text]) -> Result<Vec<Text>, SubstFault>
    ensures { MatchResult result (λ texts. substituted text.now names.now ≡ Ok texts.items)
        (λ e. (e ≡ memory) ⊎ (substituted text.now names.now ≡ Err e)) }
{
    if is_only_blanks(text) {
        return Err(SubstFault::EmptyCommand);
    }
    if names.is_empty() {
        return Err(SubstFault::NoFiles);
    }
    let marks = marks_in(text);
    if marks.all_names && marks.one_name {
        return Err(SubstFault::Both);
    }
    runs(alloc, text, names, marks).map_err(|_| SubstFault::Memory)
}

fn is_only_blanks(text: &str) -> bool
    ensures { result ≡ list_all is_blank_byte text.now }
{
    text.bytes().all(|b| b == b' ' || b == b'\t')
}

// The marks of a text.
fn marks_in(text: &str) -> Marks
    ensures all { result.all_names ≡ list_any is_all_names (pieces text.now) }
    ensures one { result.one_name ≡ list_any is_one_name (pieces text.now) }
{
    let mut marks = Marks {
        all_names: false,
        one_name: false,
    };
    let mut after_blank = true;
    let mut rest = text;
    while let Some((token, later)) = next_token(after_blank, rest) {
        match token {
            Token::AllNames => marks.all_names = true,
            Token::OneName => marks.one_name = true,
            Token::Char(_) => {}
        }
        after_blank = is_blank(token);
        rest = later;
    }
    marks
}

// The commands of a text that has these marks.
fn runs(alloc: Global, text: &str, names: &[Text], marks: Marks) -> Result<Vec<Text>, Memory>
    ensures { IfOk result (λ texts. texts.items ≡
        runs_of text.now names.now marks.all_names marks.one_name) }
{
    if marks.all_names {
        run_of_all(alloc, text, names)
    } else if marks.one_name {
        runs_of_each(alloc, text, names)
    } else {
        runs_with_names_behind(alloc, text, names)
    }
}

// The one run that has all names in the place of each mark.
fn run_of_all(alloc: Global, text: &str, names: &[Text]) -> Result<Vec<Text>, Memory>
    ensures { IfOk result (λ texts. texts.items ≡ filled (in_a_row_of names.now) text.now ∷ []) }
{
    let mut texts = Vec::new(alloc);
    let all = in_a_row(alloc, names)?;
    texts.push(fill(alloc, text, all.as_str())?)?;
    Ok(texts)
}

// A run for each name, which stands in the place of each mark.
fn runs_of_each(alloc: Global, text: &str, names: &[Text]) -> Result<Vec<Text>, Memory>
    ensures { IfOk result (λ texts. texts.items ≡
        map (λ name. filled (quoted name) text.now) names.now) }
{
    let mut texts = Vec::with_capacity(alloc, names.len())?;
    for name in names {
        let word = quote(alloc, name.as_str())?;
        texts.push(fill(alloc, text, word.as_str())?)?;
    }
    Ok(texts)
}

// A run for each name, which stands behind the text.
fn runs_with_names_behind(alloc: Global, text: &str, names: &[Text]) -> Result<Vec<Text>, Memory>
    ensures { IfOk result (λ texts. texts.items ≡
        map (λ name. text.now ++ 32 ∷ quoted name) names.now) }
{
    let mut texts = Vec::with_capacity(alloc, names.len())?;
    for name in names {
        texts.push(with_name_behind(alloc, text, name)?)?;
    }
    Ok(texts)
}

// The text, a space and the name.
fn with_name_behind(alloc: Global, text: &str, name: &Text) -> Result<Text, Memory>
    ensures { IfOk result (λ t. t ≡ text.now ++ 32 ∷ quoted name.now) }
{
    let word = quote(alloc, name.as_str())?;
    let mut command = String::from_str(alloc, text)?;
    command.push_str(" ")?;
    command.push_str(word.as_str())?;
    Ok(Text::from_string(command))
}

// The names, quoted, with one space between.
fn in_a_row(alloc: Global, names: &[Text]) -> Result<Text, Memory>
    ensures { IfOk result (λ t. t ≡ in_a_row_of names.now) }
{
    let mut row = String::new(alloc);
    for (i, name) in names.iter().enumerate() {
        if i > 0 {
            row.push_str(" ")?;
        }
        let word = quote(alloc, name.as_str())?;
        row.push_str(word.as_str())?;
    }
    Ok(Text::from_string(row))
}

// The text with this one in the place of each mark.
fn fill(alloc: Global, text: &str, shown: &str) -> Result<Text, Memory>
    ensures { IfOk result (λ t. t ≡ filled shown.now text.now) }
{
    let mut command = String::new(alloc);
    let mut after_blank = true;
    let mut rest = text;
    while let Some((token, later)) = next_token(after_blank, rest) {
        after_blank = is_blank(token);
        rest = later;
        match token {
            Token::Char(c) => command.push(c)?,
            Token::AllNames => command.push_str(shown)?,
            Token::OneName => command.push_str(shown)?,
        }
    }
    Ok(Text::from_string(command))
}
