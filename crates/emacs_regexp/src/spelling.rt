// Regexps as patterns of `regex`.
ghost use Rattle.std.specs.Prelude.{◌≡◌, ◌++◌, IfOk, OnOk, reverse, encode_utf8_all};
ghost use Rattle.emacs_regexp.specs.Backwards.{state_of, with_token, with_fronts, fronts};
ghost use Rattle.emacs_regexp.specs.Spelling.{spelled, spelled_atom, spelled_set, spelled_member, spelled_quantifier, escaped, decimal, open_text, is_special as is_special_to_regex};
ghost use Rattle.emacs_regexp.specs.Trees.{Tree, Writes};

use crate::Ast;
use crate::backwards::Backwards;
use crate::token::{Atom, Member, Quantifier, Token};
use dired_text::{Memory, Text};
use std::alloc::Global;

/// The pattern of `regex` (its documentation, "Syntax") for a tree. An item that is repeated stands in `(?:` and `)`.
pub fn spell(alloc: Global, ast: &Ast) -> Result<Text, Memory>
    ensures { IfOk result (λ t. t ≡ encode_utf8_all (spelled ast.now)) }
{
    let backwards = spell_backwards(alloc, ast.tokens())?;
    backwards.text(alloc)
}

// The pattern, its last character first, as a repeat is met before what it repeats.
fn spell_backwards(alloc: Global, tokens: &[Token]) -> Result<Backwards, Memory>
    ensures { (tree : Tree) → Writes tokens.now tree →
        IfOk result (λ backwards. backwards ≡ spelled tree) }
{
    let mut spelled = Spelled {
        backwards: Backwards::new(alloc),
        outer: Vec::new(alloc),
        repeats: 0,
    };
    let mut rest = tokens;
    while let Some((token, before)) = rest.split_last() {
        spelled.put(token)?;
        rest = before;
    }
    Ok(spelled.backwards)
}

// What is spelled of a tree, from its end.
#[derive(Drop)]
struct Spelled {
    backwards: Backwards,
    // How many repeats are put on each of the groups that are open, the innermost last.
    outer: Vec<usize>,
    // How many repeats are put on the item that comes next.
    repeats: usize,
}

impl Spelled {
    fn put(&mut self, token: &Token) -> Result<(), Memory>
        ensures { OnOk result (state_of self.new ≡ with_token token.now (state_of self.old)) }
    {
        match token {
            Token::Atom(atom) => {
                put_atom(&mut self.backwards, atom)?;
                self.put_fronts()
            }
            Token::Repeat(quantifier) => {
                put_quantifier(&mut self.backwards, *quantifier)?;
                self.backwards.put_piece(b")")?;
                // So many repeats fit into no memory.
                self.repeats = self.repeats.checked_add(1).ok_or(Memory)?;
                Ok(())
            }
            Token::Close => {
                self.backwards.put_piece(b")")?;
                self.outer.push(self.repeats)?;
                self.repeats = 0;
                Ok(())
            }
            Token::Open(is_numbered) => {
                self.backwards.put_piece(front_of(*is_numbered))?;
                self.repeats = self.outer.pop().unwrap_or(0);
                self.put_fronts()
            }
            Token::Or => self.backwards.put_piece(b"|"),
        }
    }

    // An item is complete: the groups that its repeats are put on begin.
    fn put_fronts(&mut self) -> Result<(), Memory>
        ensures { OnOk result (state_of self.new ≡ with_fronts (state_of self.old)) }
    {
        put_fronts(&mut self.backwards, self.repeats)?;
        self.repeats = 0;
        Ok(())
    }
}

// Puts the begin of so many groups without a number.
fn put_fronts(backwards: &mut Backwards, count: usize) -> Result<(), Memory>
    ensures { OnOk result (backwards.new ≡ fronts count ++ backwards.old) }
{
    for _ in 0..count {
        backwards.put_piece(b"(?:")?;
    }
    Ok(())
}

fn front_of(is_numbered: bool) -> &'static [u8]
    ensures { result.now ≡ open_text is_numbered }
{
    if is_numbered { b"(" } else { b"(?:" }
}

fn put_atom(backwards: &mut Backwards, atom: &Atom) -> Result<(), Memory>
    ensures { OnOk result (backwards.new ≡ spelled_atom atom.now ++ backwards.old) }
{
    match atom {
        Atom::Any => backwards.put_piece(b"."),
        Atom::LineBegin => backwards.put_piece(b"(?m:^)"),
        Atom::LineEnd => backwards.put_piece(b"(?m:$)"),
        Atom::TextBegin => backwards.put_piece(b"\\A"),
        Atom::TextEnd => backwards.put_piece(b"\\z"),
        Atom::Char(c) => put_char(backwards, *c),
        Atom::Set(is_negated, members) => put_set(backwards, *is_negated, members.as_slice()),
        Atom::Word => backwards.put_piece(b"\\w"),
        Atom::NotWord => backwards.put_piece(b"\\W"),
        Atom::Boundary => backwards.put_piece(b"\\b"),
        Atom::NotBoundary => backwards.put_piece(b"\\B"),
    }
}

// Puts a character, behind a backslash where it means something to `regex`.
fn put_char(backwards: &mut Backwards, c: char) -> Result<(), Memory>
    ensures { OnOk result (backwards.new ≡ escaped c ++ backwards.old) }
{
    backwards.put(c)?;
    if is_special(c) {
        backwards.put_piece(b"\\")?;
    }
    Ok(())
}

fn is_special(c: char) -> bool
    ensures { result ≡ is_special_to_regex c }
{
    match c {
        '\\' | '.' | '+' | '*' | '?' | '(' | ')' | '|' | '[' | ']' | '{' | '}' => true,
        '^' | '$' | '#' | '&' | '-' | '~' => true,
        _ => false,
    }
}

fn put_set(backwards: &mut Backwards, is_negated: bool, members: &[Member]) -> Result<(), Memory>
    ensures { OnOk result (backwards.new ≡ spelled_set is_negated members.now ++ backwards.old) }
{
    backwards.put_piece(b"]")?;
    let mut rest = members;
    while let Some((member, before)) = rest.split_last() {
        put_member(backwards, *member)?;
        rest = before;
    }
    backwards.put_piece(if is_negated { b"[^" } else { b"[" })
}

fn put_member(backwards: &mut Backwards, member: Member) -> Result<(), Memory>
    ensures { OnOk result (backwards.new ≡ spelled_member member ++ backwards.old) }
{
    match member {
        Member::One(c) => put_char(backwards, c),
        Member::Range(from, to) => {
            put_char(backwards, to)?;
            backwards.put_piece(b"-")?;
            put_char(backwards, from)
        }
    }
}

fn put_quantifier(backwards: &mut Backwards, quantifier: Quantifier) -> Result<(), Memory>
    ensures { OnOk result (backwards.new ≡ spelled_quantifier quantifier ++ backwards.old) }
{
    match quantifier {
        Quantifier::Star => backwards.put_piece(b"*"),
        Quantifier::Plus => backwards.put_piece(b"+"),
        Quantifier::Optional => backwards.put_piece(b"?"),
        Quantifier::LazyStar => backwards.put_piece(b"*?"),
        Quantifier::LazyPlus => backwards.put_piece(b"+?"),
        Quantifier::LazyOptional => backwards.put_piece(b"??"),
        Quantifier::Times(count) => {
            backwards.put_piece(b"}")?;
            put_number(backwards, count)?;
            backwards.put_piece(b"{")
        }
        Quantifier::Between(least, most) => {
            backwards.put_piece(b"}")?;
            put_number(backwards, most)?;
            backwards.put_piece(b",")?;
            put_number(backwards, least)?;
            backwards.put_piece(b"{")
        }
    }
}

// Puts a number in decimal.
fn put_number(backwards: &mut Backwards, number: u8) -> Result<(), Memory>
    ensures { OnOk result (backwards.new ≡ decimal number ++ backwards.old) }
{
    backwards.put(char::from(b'0' + number % 10))?;
    if number >= 10 {
        backwards.put(char::from(b'0' + number / 10 % 10))?;
    }
    if number >= 100 {
        backwards.put(char::from(b'0' + number / 100))?;
    }
    Ok(())
}
