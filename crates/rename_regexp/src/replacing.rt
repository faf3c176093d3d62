// The first match replaced.
ghost use Rattle.std.specs.Prelude.{◌≡◌, ◌++◌, IfOk, OnOk, flat_map};
ghost use Rattle.std.specs.String.{string_bytes};
ghost use Rattle.regex.specs.Strings.{match_haystack, match_span, regex_pattern};
ghost use Rattle.rename_regexp.specs.Renames.{group_at, piece_at, renamed_of, replaced_at};

use crate::Template;
use crate::template::Piece;
use dired_text::{Memory, Text};
use regex::{Captures, Match, Matcher, Regex};
use std::alloc::Global;

/// What makes the new names of many names by one regexp and one template. One search serves them all.
#[derive(Drop)]
pub struct Renamer<'r> {
    alloc: Global,
    matcher: Matcher<'r>,
    template: &'r Template,
}

impl<'r> Renamer<'r> {
    ghost use Rattle.rename_regexp.specs.Renamers.{pattern_of, pieces_of};

    /// What replaces the first match of this regexp by what this template stands for there.
    pub fn new(alloc: Global, regex: &'r Regex, template: &'r Template) -> Result<Self, Memory>
        ensures pattern { IfOk result (λ renamer. pattern_of renamer ≡ regex_pattern regex.now) }
        ensures template { IfOk result (λ renamer. pieces_of renamer ≡ template.now) }
    {
        let matcher = regex.matcher(alloc)?;
        Ok(Renamer {
            alloc,
            matcher,
            template,
        })
    }

    /// The name with the first match of the regexp replaced by what the template stands for there. A group that took no
    /// part in the match stands for nothing. None where nothing in the name matches.
    pub fn renamed(&mut self, name: &str) -> Result<Option<Text>, Memory>
        ensures renamed { IfOk result (λ renamed. renamed ≡
            renamed_of (pattern_of self.old) (pieces_of self.old) name.now) }
        ensures pattern { pattern_of self.new ≡ pattern_of self.old }
        ensures template { pieces_of self.new ≡ pieces_of self.old }
    {
        match self.matcher.captures(name) {
            Some(captures) => {
                let whole = captures.get_match();
                let text = replaced(self.alloc, name, &whole, &captures, self.template.pieces())?;
                Ok(Some(text))
            }
            None => Ok(None),
        }
    }
}

/// The name with the first match of the regexp replaced by what the template stands for there. A group that took no
/// part in the match stands for nothing. None where nothing in the name matches. For many names take a `Renamer`.
pub fn renamed(
    alloc: Global,
    regex: &Regex,
    template: &Template,
    name: &str,
) -> Result<Option<Text>, Memory>
    ensures { IfOk result (λ renamed. renamed ≡
        renamed_of (regex_pattern regex.now) template.now name.now) }
{
    Renamer::new(alloc, regex, template)?.renamed(name)
}

// The name with the whole match of these captures replaced.
fn replaced(
    alloc: Global,
    name: &str,
    whole: &Match<'_>,
    captures: &Captures<'_, '_>,
    pieces: &[Piece],
) -> Result<Text, Memory>
    requires { match_haystack whole.now ≡ name.now }
    ensures { IfOk result (λ t. t ≡
        replaced_at name.now (match_span whole.now) captures.now pieces.now) }
{
    let mut text = String::new(alloc);
    text.push_str(&name[..whole.start()])?;
    push_pieces(&mut text, captures, pieces)?;
    text.push_str(&name[whole.end()..])?;
    Ok(Text::from_string(text))
}

fn push_pieces(
    text: &mut String,
    captures: &Captures<'_, '_>,
    pieces: &[Piece],
) -> Result<(), Memory>
    ensures { OnOk result (string_bytes text.new ≡ string_bytes text.old
        ++ flat_map (piece_at captures.now) pieces.now) }
{
    for piece in pieces {
        push_piece(text, captures, *piece)?;
    }
    Ok(())
}

fn push_piece(text: &mut String, captures: &Captures<'_, '_>, piece: Piece) -> Result<(), Memory>
    ensures { OnOk result (string_bytes text.new ≡ string_bytes text.old
        ++ piece_at captures.now piece) }
{
    match piece {
        Piece::Char(c) => text.push(c)?,
        Piece::Whole => push_group(text, captures, 0)?,
        Piece::Group(group) => push_group(text, captures, group as usize)?,
    }
    Ok(())
}

fn push_group(text: &mut String, captures: &Captures<'_, '_>, group: usize) -> Result<(), Memory>
    ensures { OnOk result (string_bytes text.new ≡ string_bytes text.old
        ++ group_at captures.now group) }
{
    match captures.get(group) {
        Some(part) => {
            text.push_str(part.as_str())?;
            Ok(())
        }
        None => Ok(()),
    }
}
