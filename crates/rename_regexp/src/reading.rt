// Templates as texts write them.
ghost use Rattle.std.specs.Prelude.{◌≡◌, ◌<◌, ◌≤◌, ◌+◌, ◌-◌, ◌^◌, [], Err, MatchOption, MatchResult, encode_utf8, length, ◌++◌};
ghost use Rattle.std.specs.Str.{chars};
ghost use Rattle.dired_text.specs.Answers.{IsOrMemory};
ghost use Rattle.rename_regexp.specs.declared.fault.ToFault.TheVariants.{Memory as memory};
ghost use Rattle.rename_regexp.specs.Templates.{template_of, pieces_from, escape_of, Cuts};

use crate::template::Piece;
use crate::{Template, ToFault};
use std::alloc::Global;

/// The template that a text writes for a regexp with so many groups: `\&` is the whole match, `\1` to `\9` are groups,
/// `\\` is a backslash, and every other character is itself.
///
/// # Errors
/// The fault that comes first, from the left.
pub fn read_to(alloc: Global, text: &str, groups: u32) -> Result<Template, ToFault>
    ensures { IsOrMemory memory (template_of groups text.now) result }
{
    let mut pieces = Vec::new(alloc);
    let mut at = 0;
    let mut rest = text;
    while let Some((piece, later)) = next_piece(groups, at, rest)? {
        pieces.push(piece)?;
        at += (rest.len() - later.len()) as u64;
        rest = later;
    }
    Ok(Template::of_pieces(pieces))
}

// The piece that stands first in a text, and the text behind it; None at the end. The text stands at this place.
fn next_piece(groups: u32, at: u64, text: &str) -> Result<Option<(Piece, &str)>, ToFault>
    ensures { MatchResult result
        (λ found. MatchOption found (text.now ≡ []) (λ x. Cuts groups at text.now x.0 x.1.now))
        (λ fault. pieces_from groups at (chars text.now) ≡ Err fault) }
{
    let Some((c, later)) = split_first(text) else {
        return Ok(None);
    };
    if c != '\\' {
        return Ok(Some((Piece::Char(c), later)));
    }
    let Some((escaped, behind)) = split_first(later) else {
        return Err(ToFault::BadBackslash(at));
    };
    match escape(groups, at, escaped) {
        Ok(piece) => Ok(Some((piece, behind))),
        Err(fault) => Err(fault),
    }
}

// The piece that a backslash at this place and the character behind it write.
fn escape(groups: u32, at: u64, c: char) -> Result<Piece, ToFault>
    ensures { result ≡ escape_of groups at c }
{
    match c {
        '&' => Ok(Piece::Whole),
        '\\' => Ok(Piece::Char('\\')),
        '1'..='9' => {
            let group = c as u32 - '0' as u32;
            if group <= groups {
                Ok(Piece::Group(group as u8))
            } else {
                Err(ToFault::NoGroup(at))
            }
        }
        _ => Err(ToFault::BadBackslash(at)),
    }
}

// The first character and the text behind it.
fn split_first(text: &str) -> Option<(char, &str)>
    ensures { MatchOption result (text.now ≡ []) (λ (c, rest). text.now ≡ encode_utf8 c
        ++ rest.now) }
{
    let mut chars = text.chars();
    match chars.next() {
        Some(c) => Some((c, chars.as_str())),
        None => None,
    }
}
