// One token after another.
ghost use Rattle.std.specs.Prelude.{◌≡◌, ◌+◌, ◌<◌, ◌≤◌, ◌^◌, length, IfOk, IfSome};
ghost use Rattle.dired_text.specs.Answers.{IsOrMemory};
ghost use Rattle.emacs_regexp.specs.declared.fault.RegexpFault.TheVariants.{Memory as memory};
ghost use Rattle.emacs_regexp.specs.Intervals.{quantifier_of, interval as interval_of_text, is_closed, number as number_of, digit_at as digit_at_of, digit as digit_of};
ghost use Rattle.emacs_regexp.specs.Tokens.{token_of, before_behind as before_behind_token, is_end as is_end_of, repeat_of, escape_of, atom_of, open_of, interval_of};

use crate::RegexpFault;
use crate::places::behind;
use crate::sets::read_set;
use crate::token::{Atom, Quantifier, Token};
use std::alloc::Global;

// What stands before a place, as far as it matters there.
#[derive(Clone, Copy, Debug, PartialEq, Eq)]
pub(crate) enum Before {
    // Nothing: the start of the regexp, of a group or of an alternative.
    Start,
    // A `^` that is the begin of a line.
    Caret,
    // An item, which can be repeated.
    Item,
}

// The token that begins with this character, before the rest, and how many characters of the rest it takes. `at` is the
// place of the character, counted in characters.
pub(crate) fn next_token(
    alloc: Global,
    before: Before,
    at: u64,
    c: char,
    rest: &[char],
) -> Result<(Token, usize), RegexpFault>
    requires { at + length rest.now + 1 < 2 ^ 64 }
    ensures token { IsOrMemory memory (token_of before at c rest.now) result }
    ensures within { IfOk result (λ x. x.1 ≤ length rest.now) }
{
    match c {
        '\\' => read_escape(before, at, rest),
        '[' => read_set(alloc, at, rest),
        '.' => Ok((Token::Atom(Atom::Any), 0)),
        '^' if before == Before::Start => Ok((Token::Atom(Atom::LineBegin), 0)),
        '$' if is_end(rest) => Ok((Token::Atom(Atom::LineEnd), 0)),
        '*' | '+' | '?' if before == Before::Item => Ok(read_repeat(c, rest)),
        _ => Ok((Token::Atom(Atom::Char(c)), 0)),
    }
}

// What stands before the place behind a token.
pub(crate) fn before_behind(token: &Token) -> Before
    ensures { result ≡ before_behind_token token.now }
{
    match token {
        Token::Open(_) => Before::Start,
        Token::Or => Before::Start,
        Token::Atom(atom) => match atom {
            Atom::LineBegin => Before::Caret,
            _ => Before::Item,
        },
        Token::Repeat(_) => Before::Item,
        Token::Close => Before::Item,
    }
}

// Whether an alternative ends here.
fn is_end(rest: &[char]) -> bool
    ensures { result ≡ is_end_of rest.now }
{
    match rest {
        [] => true,
        ['\\', ')' | '|', ..] => true,
        _ => false,
    }
}

// The repeat that this character begins.
fn read_repeat(c: char, rest: &[char]) -> (Token, usize)
    ensures token { result ≡ repeat_of c rest.now }
    ensures within { result.1 ≤ length rest.now }
{
    match rest {
        ['?', ..] => (Token::Repeat(quantifier(c, true)), 1),
        _ => (Token::Repeat(quantifier(c, false)), 0),
    }
}

fn quantifier(c: char, is_lazy: bool) -> Quantifier
    ensures { result ≡ quantifier_of c is_lazy }
{
    match c {
        '*' if is_lazy => Quantifier::LazyStar,
        '*' => Quantifier::Star,
        '+' if is_lazy => Quantifier::LazyPlus,
        '+' => Quantifier::Plus,
        _ if is_lazy => Quantifier::LazyOptional,
        _ => Quantifier::Optional,
    }
}

// The token that begins with a backslash at this place.
fn read_escape(before: Before, at: u64, rest: &[char]) -> Result<(Token, usize), RegexpFault>
    ensures token { result ≡ escape_of before at rest.now }
    ensures within { IfOk result (λ x. x.1 ≤ length rest.now) }
{
    let [c, later @ ..] = rest else {
        return Err(RegexpFault::TrailingBackslash);
    };
    match c {
        '(' => read_open(at, later),
        ')' => Ok((Token::Close, 1)),
        '|' => Ok((Token::Or, 1)),
        '{' => read_interval(before, at, later),
        '}' => Err(RegexpFault::BadInterval(at)),
        _ => read_atom_escape(at, *c),
    }
}

// The atom that a backslash at this place and the character behind it write.
fn read_atom_escape(at: u64, c: char) -> Result<(Token, usize), RegexpFault>
    ensures token { result ≡ atom_of at c }
    ensures within { IfOk result (λ x. x.1 ≤ 1) }
{
    let atom = match c {
        'w' => Atom::Word,
        'W' => Atom::NotWord,
        'b' => Atom::Boundary,
        'B' => Atom::NotBoundary,
        '`' => Atom::TextBegin,
        '\'' => Atom::TextEnd,
        's' | 'S' | 'c' | 'C' | '<' | '>' | '_' | '=' | '0'..='9' => {
            return Err(RegexpFault::NotInProfile(at));
        }
        _ => Atom::Char(c),
    };
    Ok((Token::Atom(atom), 1))
}

// The group that `\(` at this place begins.
fn read_open(at: u64, rest: &[char]) -> Result<(Token, usize), RegexpFault>
    ensures token { result ≡ open_of at rest.now }
    ensures within { IfOk result (λ x. x.1 ≤ length rest.now + 1) }
{
    match rest {
        ['?', ':', ..] => Ok((Token::Open(false), 3)),
        ['?', ..] => Err(RegexpFault::NotInProfile(at)),
        _ => Ok((Token::Open(true), 1)),
    }
}

// The repeat that `\{` at this place begins.
fn read_interval(before: Before, at: u64, rest: &[char]) -> Result<(Token, usize), RegexpFault>
    ensures token { result ≡ interval_of before at rest.now }
    ensures within { IfOk result (λ x. x.1 ≤ length rest.now + 1) }
{
    if before != Before::Item {
        return Err(RegexpFault::BadInterval(at));
    }
    match interval(rest) {
        Some((quantifier, more)) => Ok((Token::Repeat(quantifier), 1 + more)),
        None => Err(RegexpFault::BadInterval(at)),
    }
}

// The interval that stands before the rest, with its `\}`, and how many characters it takes.
fn interval(text: &[char]) -> Option<(Quantifier, usize)>
    ensures interval { result ≡ interval_of_text text.now }
    ensures within { IfSome result (λ x. x.1 ≤ length text.now) }
{
    let (least, digits) = number(text)?;
    match behind(text, digits) {
        ['\\', '}', ..] => Some((Quantifier::Times(least), digits + 2)),
        [',', later @ ..] => {
            let (most, more) = number(later)?;
            if least <= most && is_interval_end(behind(later, more)) {
                Some((Quantifier::Between(least, most), digits + 1 + more + 2))
            } else {
                None
            }
        }
        _ => None,
    }
}

fn is_interval_end(text: &[char]) -> bool
    ensures { result ≡ is_closed text.now }
{
    match text {
        ['\\', '}', ..] => true,
        _ => false,
    }
}

// The number from 0 to 255 that stands first, in decimal without a leading zero, and how many digits it has, three at
// most.
fn number(text: &[char]) -> Option<(u8, usize)>
    ensures number { result ≡ number_of text.now }
    ensures within { IfSome result (λ x. x.1 ≤ length text.now) }
{
    let first = digit_at(text, 0)?;
    if first == 0 {
        return Some((0, 1));
    }
    let Some(second) = digit_at(text, 1) else {
        return Some((first, 1));
    };
    let Some(third) = digit_at(text, 2) else {
        return Some((first * 10 + second, 2));
    };
    let value = u16::from(first) * 100 + u16::from(second) * 10 + u16::from(third);
    if value > 255 {
        return None;
    }
    Some((value as u8, 3))
}

// The value of the decimal digit at a place.
fn digit_at(text: &[char], place: usize) -> Option<u8>
    ensures digit { result ≡ digit_at_of place text.now }
    ensures value { IfSome result (λ digit. digit ≤ 9) }
    ensures within { IfSome result (λ digit. place < length text.now) }
{
    match text.get(place) {
        Some(c) => digit(*c),
        None => None,
    }
}

fn digit(c: char) -> Option<u8>
    ensures digit { result ≡ digit_of c }
    ensures value { IfSome result (λ digit. digit ≤ 9) }
{
    match c {
        '0'..='9' => Some((c as u32 - '0' as u32) as u8),
        _ => None,
    }
}
