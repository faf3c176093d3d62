// What the words of a predicate say.
ghost use Rattle.std.specs.Prelude.{◌≡◌, ◌<◌, ◌≤◌, ◌^◌, IfOk, IfSome};
ghost use Rattle.std.specs.Str.{bytes_eq};
ghost use Rattle.find_words.specs.Arguments.{condition_of, bound_of, size_of, kind_of, mode_of, number_of, digit_of, symbol_of as symbol_of_word};

use crate::conditions::{Bound, Condition};
use dired_text::Memory;
use name_patterns::Pattern;
use std::alloc::Global;
use tree_core::Kind;

// The kinds of conditions, by the words that begin them.
#[derive(Clone, Copy, Debug, PartialEq, Eq)]
pub(crate) enum Primary {
    Name,
    Kind,
    Size,
    Days,
    Mode,
    Links,
}

// What a word is where no argument is due.
#[derive(Clone, Copy, Debug, PartialEq, Eq)]
pub(crate) enum Symbol {
    Open,
    Close,
    Not,
    And,
    Or,
    // A condition begins.
    Begins(Primary),
    Unknown,
}

pub(crate) fn symbol_of(word: &[char]) -> Symbol
    ensures { result ≡ symbol_of_word word.now }
{
    if is_text(word, b"(") {
        Symbol::Open
    } else if is_text(word, b")") {
        Symbol::Close
    } else if is_text(word, b"!") {
        Symbol::Not
    } else if is_text(word, b"-a") {
        Symbol::And
    } else if is_text(word, b"-o") {
        Symbol::Or
    } else if is_text(word, b"-name") {
        Symbol::Begins(Primary::Name)
    } else if is_text(word, b"-type") {
        Symbol::Begins(Primary::Kind)
    } else if is_text(word, b"-size") {
        Symbol::Begins(Primary::Size)
    } else if is_text(word, b"-mtime") {
        Symbol::Begins(Primary::Days)
    } else if is_text(word, b"-perm") {
        Symbol::Begins(Primary::Mode)
    } else if is_text(word, b"-links") {
        Symbol::Begins(Primary::Links)
    } else {
        Symbol::Unknown
    }
}

// Whether a word is this text.
fn is_text(word: &[char], text: &[u8]) -> bool
    ensures { result ≡ bytes_eq word.now text.now }
{
    let mut word = word;
    let mut text = text;
    while let (Some((c, word_later)), Some((b, text_later))) = (
        word.split_first(),
        text.split_first(),
    ) {
        if *c != char::from(*b) {
            return false;
        }
        word = word_later;
        text = text_later;
    }
    word.is_empty() && text.is_empty()
}

// The condition that a word writes behind the word that begins it, or None where it writes none.
pub(crate) fn condition(
    alloc: Global,
    primary: Primary,
    word: &[char],
) -> Result<Option<Condition>, Memory>
    ensures { IfOk result (λ found. found ≡ condition_of primary word.now) }
{
    match primary {
        Primary::Name => Ok(Some(Condition::Name(Pattern::read(alloc, word)?))),
        Primary::Kind => Ok(kind(word)),
        Primary::Size => Ok(size(word)),
        Primary::Days => Ok(days(word)),
        Primary::Mode => Ok(mode(word)),
        Primary::Links => Ok(links(word)),
    }
}

fn kind(word: &[char]) -> Option<Condition>
    ensures { result ≡ kind_of word.now }
{
    match word {
        ['f'] => Some(Condition::OfKind(Kind::File)),
        ['d'] => Some(Condition::OfKind(Kind::Dir)),
        ['l'] => Some(Condition::OfKind(Kind::Link)),
        _ => None,
    }
}

// A size in units of 512 bytes, or with a `c` behind it in bytes.
fn size(word: &[char]) -> Option<Condition>
    ensures { result ≡ size_of word.now }
{
    if !word.is_empty() && word[word.len() - 1] == 'c' {
        return Some(Condition::Bytes(bound(&word[..word.len() - 1])?));
    }
    Some(Condition::Blocks(bound(word)?))
}

fn days(word: &[char]) -> Option<Condition>
    ensures { result ≡ condition_of Primary.Days word.now }
{
    Some(Condition::Days(bound(word)?))
}

fn links(word: &[char]) -> Option<Condition>
    ensures { result ≡ condition_of Primary.Links word.now }
{
    Some(Condition::Links(bound(word)?))
}

// Octal permission bits, or with a `-` in front those that are set.
fn mode(word: &[char]) -> Option<Condition>
    ensures { result ≡ mode_of word.now }
{
    match word {
        ['-', digits @ ..] => Some(Condition::ModeHas(bits(digits)?)),
        _ => Some(Condition::ModeIs(bits(word)?)),
    }
}

fn bits(word: &[char]) -> Option<u16>
    ensures { result ≡ number_of 8 4 word.now }
{
    let value = number(word, 8, 4)?;
    Some(value as u16)
}

// A number, which with a `+` in front is more than what follows, and with a `-` less.
fn bound(word: &[char]) -> Option<Bound>
    ensures { result ≡ bound_of word.now }
{
    match word {
        ['+', digits @ ..] => Some(Bound::MoreThan(number(digits, 10, 18)?)),
        ['-', digits @ ..] => Some(Bound::LessThan(number(digits, 10, 18)?)),
        _ => Some(Bound::Exactly(number(word, 10, 18)?)),
    }
}

// The number that one digit or more, and so many at most, write to this base.
fn number(digits: &[char], base: u64, most: usize) -> Option<u64>
    requires base { base ≤ 10 }
    requires some { 1 ≤ base }
    requires most { most ≤ 18 }
    ensures number { result ≡ number_of base most digits.now }
    ensures below { IfSome result (λ n. n < base ^ most) }
{
    if digits.is_empty() || digits.len() > most {
        return None;
    }
    let mut value = 0;
    let mut rest = digits;
    while let Some((c, later)) = rest.split_first() {
        value = value * base + digit(*c, base)?;
        rest = later;
    }
    Some(value)
}

// The value of a digit to this base.
fn digit(c: char, base: u64) -> Option<u64>
    requires { base ≤ 10 }
    ensures digit { result ≡ digit_of base c }
    ensures below { IfSome result (λ n. n < base) }
{
    let code = u64::from(u32::from(c));
    if code < 48 || code >= 48 + base {
        return None;
    }
    Some(code - 48)
}
