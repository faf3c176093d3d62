// Sets of characters.
ghost use Rattle.std.specs.Prelude.{◌≡◌, ◌+◌, ◌<◌, ◌≤◌, ◌^◌, true, length, IfOk, IfSome, Ok};
ghost use Rattle.dired_text.specs.Answers.{IsOrMemory};
ghost use Rattle.emacs_regexp.specs.declared.fault.RegexpFault.TheVariants.{Memory as memory};
ghost use Rattle.emacs_regexp.specs.Sets.{members_from, member_of, one_or_range, range_of};
ghost use Rattle.emacs_regexp.specs.Intervals.{is_next as is_next_in};
ghost use Rattle.emacs_regexp.specs.Tokens.{set_of};

use crate::RegexpFault;
use crate::places::behind;
use crate::token::{Atom, Member, Members, Token};
use std::alloc::Global;

// The set that `[` at this place begins, before the rest, and how many characters of the rest it takes.
pub(crate) fn read_set(alloc: Global, at: u64, rest: &[char]) -> Result<(Token, usize), RegexpFault>
    requires { at + length rest.now + 1 < 2 ^ 64 }
    ensures set { IsOrMemory memory (set_of at rest.now) result }
    ensures within { IfOk result (λ x. x.1 ≤ length rest.now) }
{
    match rest {
        ['^', later @ ..] => {
            let (members, more) = read_members(alloc, at, at + 2, later)?;
            Ok((Token::Atom(Atom::Set(true, members)), 1 + more))
        }
        _ => {
            let (members, more) = read_members(alloc, at, at + 1, rest)?;
            Ok((Token::Atom(Atom::Set(false, members)), more))
        }
    }
}

// The members up to the `]` that closes the set, and how many characters they and it take. The set was opened at one
// place and its members begin at the other.
fn read_members(
    alloc: Global,
    opened: u64,
    from: u64,
    text: &[char],
) -> Result<(Members, usize), RegexpFault>
    requires { from + length text.now < 2 ^ 64 }
    ensures members { IsOrMemory memory (members_from opened true from 0 text.now) result }
    ensures within { IfOk result (λ x. x.1 ≤ length text.now) }
{
    let mut members = Members::new(alloc);
    let mut is_first = true;
    let mut at = from;
    let mut rest = text;
    while let Some((c, later)) = rest.split_first() {
        match next_member(is_first, at, *c, later)? {
            Some((member, taken)) => {
                members.push(member)?;
                is_first = false;
                at += taken as u64;
                rest = behind(rest, taken);
            }
            None => return Ok((members, text.len() - later.len())),
        }
    }
    Err(RegexpFault::Unclosed(opened))
}

// The member that begins with this character, before the rest, and how many characters it takes; None at the `]` that
// closes the set. A `]` that comes first in the set is a member.
fn next_member(
    is_first: bool,
    at: u64,
    c: char,
    rest: &[char],
) -> Result<Option<(Member, usize)>, RegexpFault>
    requires { at + length rest.now < 2 ^ 64 }
    ensures member { result ≡ member_of is_first at c rest.now }
    ensures some { IfOk result (λ found. IfSome found (λ x. 0 < x.1)) }
    ensures within { IfOk result (λ found. IfSome found (λ x. x.1 ≤ length rest.now + 1)) }
{
    if c == ']' && !is_first {
        return Ok(None);
    }
    if c == '[' && is_next(':', rest) {
        return Err(RegexpFault::NotInProfile(at));
    }
    match rest {
        ['-', to, later @ ..] if *to != ']' => range(at, c, *to, later),
        _ => Ok(Some((Member::One(c), 1))),
    }
}

// The range between two characters, which begins at this place and stands before the rest.
fn range(
    at: u64,
    from: char,
    to: char,
    rest: &[char],
) -> Result<Option<(Member, usize)>, RegexpFault>
    requires { at + 2 < 2 ^ 64 }
    ensures range { result ≡ range_of at from to rest.now }
    ensures taken { IfOk result (λ found. IfSome found (λ x. x.1 ≡ 3)) }
{
    if to < from {
        return Err(RegexpFault::BadClass(at));
    }
    if to == '[' && is_next(':', rest) {
        return Err(RegexpFault::NotInProfile(at + 2));
    }
    Ok(Some((Member::Range(from, to), 3)))
}

// Whether a text goes on with this character.
fn is_next(c: char, text: &[char]) -> bool
    ensures { result ≡ is_next_in c text.now }
{
    match text {
        [first, ..] => *first == c,
        [] => false,
    }
}
