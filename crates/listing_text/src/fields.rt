// What each field of a file's line takes off the front of a text.
ghost use Rattle.std.specs.Prelude.{◌≡◌, ◌≤◌, ◌+◌, ◌-◌, not, length, option_map, IfSome, IfErr, IfOk, List, ℕ, Option, Some, None, take, IsTrue};
ghost use Rattle.std.specs.List.{list_all};
ghost use Rattle.std.specs.Str.{bytes_eq};
ghost use Rattle.listing_text.specs.Listed.{arrow};
ghost use Rattle.listing_text.specs.Fields.{run_len, is_space as is_space_byte, mark_in as mark_in_text, kind_in as kind_in_text, mode_in as mode_in_text, number_in as number_in_text, word_in as word_in_text, date_in as date_in_text, is_word as is_word_text, is_word_byte as is_word_byte_of, word_len as word_len_of, arrow_place as arrow_place_in};
ghost use Rattle.listing_text.specs.Reading.{behind_space as behind_space_of};
ghost use Rattle.listing_text.specs.Numbers.{is_digit as is_digit_byte};

use crate::dates::read_minute;
use crate::numbers::{is_digit, read_number};
use crate::writing::is_link;
use dired_text::read_mode;
use std::str;
use tree_core::Kind;

// The mark: a byte from 32 to 126.
#[tactic(auto, unfolding(crate::specs::Fields::mark_in))]
pub(crate) fn mark_in(text: &[u8]) -> Option<(u8, &[u8])>
    ensures { option_map (λ t. (t.0, t.1.now)) result ≡ mark_in_text text.now }
{
    match text {
        [b, rest @ ..] if 32 <= *b && *b <= 126 => Some((*b, rest)),
        _ => None,
    }
}

// The kind: `-`, `d` or `l`.
#[tactic(auto, unfolding(crate::specs::Fields::kind_in))]
pub(crate) fn kind_in(text: &[u8]) -> Option<(Kind, &[u8])>
    ensures { option_map (λ t. (t.0, t.1.now)) result ≡ kind_in_text text.now }
{
    match text {
        [b'-', rest @ ..] => Some((Kind::File, rest)),
        [b'd', rest @ ..] => Some((Kind::Dir, rest)),
        [b'l', rest @ ..] => Some((Kind::Link, rest)),
        _ => None,
    }
}

// The mode: nine letters, which of a link are `rwxrwxrwx`.
#[tactic(auto, unfolding(crate::specs::Fields::mode_in))]
pub(crate) fn mode_in(kind: Kind, text: &[u8]) -> Option<(u16, &[u8])>
    ensures { option_map (λ t. (t.0, t.1.now)) result ≡ mode_in_text kind text.now }
{
    let (letters, rest) = text.split_at_checked(9)?;
    let mode = read_mode(letters)?;
    if is_link(kind) && mode != 0o777 {
        return None;
    }
    Some((mode, rest))
}

// A number of at most `most`: the digits that the text begins with.
#[tactic(auto, unfolding(crate::specs::Fields::number_in))]
pub(crate) fn number_in(most: u64, text: &[u8]) -> Option<(u64, &[u8])>
    ensures number { option_map (λ t. (t.0, t.1.now)) result ≡ number_in_text most text.now }
    ensures bound { IfSome result (λ t. t.0 ≤ most) }
{
    let (digits, rest) = text.split_at(digits_len(text));
    Some((read_number(digits, most)?, rest))
}

// Owner or group: 1 to 64 bytes from 33 to 126, up to the next space.
#[tactic(auto, unfolding(crate::specs::Fields::word_in))]
pub(crate) fn word_in(text: &[u8]) -> Option<(&str, &[u8])>
    ensures { option_map (λ t. (t.0.now, t.1.now)) result ≡ word_in_text text.now }
{
    let (word, rest) = text.split_at(word_len(text));
    if !is_word(word) {
        return None;
    }
    match str::from_utf8(word) {
        Ok(word) => Some((word, rest)),
        Err(_) => None,
    }
}

// The date: 16 bytes.
#[tactic(auto, unfolding(crate::specs::Fields::date_in))]
pub(crate) fn date_in(text: &[u8]) -> Option<(i64, &[u8])>
    ensures { option_map (λ t. (t.0, t.1.now)) result ≡ date_in_text text.now }
{
    let (date, rest) = text.split_at_checked(16)?;
    Some((read_minute(date)?, rest))
}

fn is_word(word: &[u8]) -> bool
    ensures { result ≡ is_word_text word.now }
{
    1 <= word.len() && word.len() <= 64 && has_word_bytes(word)
}

fn has_word_bytes(word: &[u8]) -> bool
    ensures { result ≡ list_all is_word_byte_of word.now }
{
    word.iter().all(|b| 33 <= *b && *b <= 126)
}

// How many spaces a text begins with.
pub(crate) fn space_len(text: &[u8]) -> usize
    ensures len { result ≡ run_len is_space_byte text.now }
    ensures bound { result ≤ length text.now }
{
    text.iter().position(|b| *b != b' ').unwrap_or(text.len())
}

// How many digits a text begins with.
fn digits_len(text: &[u8]) -> usize
    ensures len { result ≡ run_len is_digit_byte text.now }
    ensures bound { result ≤ length text.now }
{
    text.iter()
        .position(|b| !is_digit(*b))
        .unwrap_or(text.len())
}

// How many bytes stand before the first space.
fn word_len(text: &[u8]) -> usize
    ensures len { result ≡ word_len_of text.now }
    ensures bound { result ≤ length text.now }
{
    text.iter().position(|b| *b == b' ').unwrap_or(text.len())
}

// How many bytes stand before the first ` -> `.
#[tactic(auto, unfolding(crate::specs::Fields::arrow_place))]
pub fn arrow_place(text: &[u8]) -> Option<usize>
    ensures place { result ≡ arrow_place_in text.now }
    ensures within { IfSome result (λ place. place + 4 ≤ length text.now) }
{
    for place in 0..text.len() {
        if begins_with_arrow(&text[place..]) {
            return Some(place);
        }
    }
    None
}

fn begins_with_arrow(text: &[u8]) -> bool
    ensures value { result ≡ bytes_eq (take 4 text.now) arrow }
    ensures within { IsTrue result → 4 ≤ length text.now }
{
    text.starts_with(b" -> ")
}

// What stands behind one space.
pub fn behind_space(text: &[u8]) -> Option<&[u8]>
    ensures { option_map (λ r. r.now) result ≡ behind_space_of text.now }
{
    match text {
        [b' ', rest @ ..] => Some(rest),
        _ => None,
    }
}
