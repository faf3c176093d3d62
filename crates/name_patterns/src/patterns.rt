// Patterns of names.
ghost use Rattle.std.specs.Prelude.{◌≡◌, ◌<◌, ◌≤◌, ◌||◌, [], ◌∷◌, drop, length, IfOk, MatchOption};
ghost use Rattle.name_patterns.specs.Patterns.{glyphs_of as glyphs_of_text, is_mark as is_mark_glyph, pieces_of, member_count as member_count_of, is_next as is_next_of, has as has_character, stands_for as stands_for_character};
ghost use Rattle.std.specs.List.{position_or_len};
ghost use Rattle.name_patterns.specs.PatternReading.{StartsWith, IsSetRead, sets_behind as sets_behind_piece};

use dired_text::Memory;
use std::alloc::Global;
use std::marker::Model;

/// A character of a pattern. One that stands behind a backslash has no special meaning.
#[derive(Clone, Copy, Debug, PartialEq, Eq)]
pub struct Glyph {
    /// The character.
    pub character: char,
    /// Whether it stands behind a backslash.
    pub is_escaped: bool,
}

/// The members of a set, seen as the list of their glyphs.
#[derive(Debug, Drop)]
pub struct Glyphs {
    glyphs: Vec<Glyph>,
}

impl Model for Glyphs {
    ghost use Rattle.std.specs.Prelude.{List};
    ghost use Rattle.name_patterns.specs.declared.patterns.Glyph.{Glyph};

    ghost Value = { List Glyph };

    ghost view = { λ g. g.glyphs.items };
}

impl Glyphs {
    ghost use Rattle.std.specs.Prelude.{◌≡◌};

    fn from_vec(glyphs: Vec<Glyph>) -> Self
        ensures { result ≡ glyphs.items }
    {
        Glyphs { glyphs }
    }

    fn as_slice(&self) -> &[Glyph]
        ensures { result.now ≡ self.now }
    {
        self.glyphs.as_slice()
    }
}

/// What a pattern is made of.
#[derive(Debug, Drop)]
pub enum Piece {
    /// Any run of characters, also none.
    AnyRun,
    /// Any one character.
    AnyOne,
    /// This character.
    One(char),
    /// A character that these stand for, or with `true` one that they don't.
    Set(bool, Glyphs),
}

/// A pattern, seen as its pieces.
#[derive(Debug, Drop)]
pub struct Pattern {
    pieces: Vec<Piece>,
}

impl Model for Pattern {
    ghost use Rattle.std.specs.Prelude.{List};
    ghost use Rattle.name_patterns.specs.declared.patterns.Piece.{Piece};

    ghost Value = { List Piece };

    ghost view = { λ p. p.pieces.items };
}

impl Pattern {
    ghost use Rattle.std.specs.Prelude.{◌≡◌, IfOk};
    ghost use Rattle.name_patterns.specs.Patterns.{glyphs_of, pieces_of};

    /// The pattern that the characters of a text write: `*` is any run, `?` any one character, `[..]` and `[!..]` are sets with
    /// ranges, and a character behind a `\` is itself, as is a `[` that isn't closed. A leading dot is nothing special (POSIX,
    /// "Pattern Matching Notation"). Takes a number of steps that grows as the length of the text.
    pub fn read(alloc: Global, text: &[char]) -> Result<Self, Memory>
        ensures { IfOk result (λ p. p ≡ pieces_of (glyphs_of text.now)) }
    {
        let glyphs = glyphs_of(alloc, text)?;
        Ok(Pattern {
            pieces: read_pieces(alloc, &glyphs)?,
        })
    }

    pub(crate) fn pieces(&self) -> &[Piece]
        ensures { result.now ≡ self.now }
    {
        self.pieces.as_slice()
    }
}

// The glyphs of a text. A backslash at its end is itself.
fn glyphs_of(alloc: Global, text: &[char]) -> Result<Vec<Glyph>, Memory>
    ensures { IfOk result (λ glyphs. glyphs.items ≡ glyphs_of_text text.now) }
{
    let mut glyphs = Vec::new(alloc);
    let mut rest = text;
    while let Some((glyph, later)) = first_glyph(rest) {
        glyphs.push(glyph)?;
        rest = later;
    }
    Ok(glyphs)
}

// The first glyph of a text and what stands behind it.
fn first_glyph(text: &[char]) -> Option<(Glyph, &[char])>
    ensures { MatchOption result (text.now ≡ [])
        (λ x. (glyphs_of_text text.now ≡ x.0 ∷ glyphs_of_text x.1.now) ×
        (length x.1.now < length text.now)) }
{
    match text {
        ['\\', c, later @ ..] => Some((
            Glyph {
                character: *c,
                is_escaped: true,
            },
            later,
        )),
        [c, later @ ..] => Some((
            Glyph {
                character: *c,
                is_escaped: false,
            },
            later,
        )),
        [] => None,
    }
}

fn read_pieces(alloc: Global, glyphs: &[Glyph]) -> Result<Vec<Piece>, Memory>
    ensures { IfOk result (λ pieces. pieces.items ≡ pieces_of glyphs.now) }
{
    let mut pieces = Vec::new(alloc);
    let mut sets_begin = true;
    let mut rest = glyphs;
    while let Some((glyph, later)) = rest.split_first() {
        let (piece, taken) = first_piece(alloc, sets_begin, *glyph, later)?;
        sets_begin = sets_behind(sets_begin, *glyph, taken);
        pieces.push(piece)?;
        rest = behind(later, taken);
    }
    Ok(pieces)
}

// Whether a `[` may begin a set behind a piece that took so many glyphs behind its first.
fn sets_behind(sets_begin: bool, glyph: Glyph, taken: usize) -> bool
    ensures { result ≡ sets_behind_piece sets_begin glyph taken }
{
    if is_mark('[', glyph) && taken == 0 {
        false
    } else {
        sets_begin
    }
}

// The piece that begins with a glyph before others, and how many of them it takes. With `sets_begin` a `[` may begin a set.
fn first_piece(
    alloc: Global,
    sets_begin: bool,
    glyph: Glyph,
    later: &[Glyph],
) -> Result<(Piece, usize), Memory>
    ensures piece { IfOk result (λ x. StartsWith sets_begin glyph later.now x.0 x.1) }
    ensures within { IfOk result (λ x. x.1 ≤ length later.now) }
{
    if is_mark('*', glyph) {
        return Ok((Piece::AnyRun, 0));
    }
    if is_mark('?', glyph) {
        return Ok((Piece::AnyOne, 0));
    }
    if is_mark('[', glyph) && sets_begin {
        return read_set(alloc, later);
    }
    let c = glyph.character;
    Ok((Piece::One(c), 0))
}

// The set that a `[` begins before these glyphs, and how many of them it takes. A `[` that isn't closed is itself.
fn read_set(alloc: Global, glyphs: &[Glyph]) -> Result<(Piece, usize), Memory>
    ensures piece { IfOk result (λ x. IsSetRead glyphs.now x.0 x.1) }
    ensures within { IfOk result (λ x. x.1 ≤ length glyphs.now) }
{
    let negated = is_next('!', glyphs);
    let members = if negated { behind(glyphs, 1) } else { glyphs };
    let count = member_count(members);
    if count >= members.len() {
        return Ok((Piece::One('['), 0));
    }
    let mut set = Vec::new(alloc);
    set.extend_from_slice(&members[..count])?;
    let taken = if negated { count + 2 } else { count + 1 };
    Ok((Piece::Set(negated, Glyphs::from_vec(set)), taken))
}

// How many glyphs stand before the `]` that closes a set. The first of them belongs to the set, also where it is a `]`.
fn member_count(glyphs: &[Glyph]) -> usize
    ensures { result ≡ member_count_of glyphs.now }
{
    1 + close_place(behind_first(glyphs))
}

// Where the first `]` stands, or the end.
fn close_place(glyphs: &[Glyph]) -> usize
    ensures place { result ≡ position_or_len (is_mark_glyph 93) glyphs.now }
    ensures within { result ≤ length glyphs.now }
{
    glyphs
        .iter()
        .position(|g| is_mark(']', *g))
        .unwrap_or(glyphs.len())
}

fn behind_first(glyphs: &[Glyph]) -> &[Glyph]
    ensures { result.now ≡ drop 1 glyphs.now }
{
    match glyphs {
        [_, later @ ..] => later,
        [] => glyphs,
    }
}

// Whether the first of these is this mark.
fn is_next(mark: char, glyphs: &[Glyph]) -> bool
    ensures { result ≡ is_next_of mark glyphs.now }
{
    match glyphs {
        [first, ..] => is_mark(mark, *first),
        [] => false,
    }
}

// Whether a glyph is this character with its special meaning.
fn is_mark(mark: char, glyph: Glyph) -> bool
    ensures { result ≡ is_mark_glyph mark glyph }
{
    glyph.character == mark && !glyph.is_escaped
}

// The glyphs behind so many.
fn behind(glyphs: &[Glyph], count: usize) -> &[Glyph]
    requires { count ≤ length glyphs.now }
    ensures { result.now ≡ drop count glyphs.now }
{
    &glyphs[count..]
}

// Whether a piece that is no run stands for a character.
pub(crate) fn stands_for(piece: &Piece, c: char) -> bool
    ensures { result ≡ stands_for_character piece.now c }
{
    match piece {
        Piece::AnyRun => false,
        Piece::AnyOne => true,
        Piece::One(own) => *own == c,
        Piece::Set(negated, glyphs) => has(glyphs.as_slice(), c) != *negated,
    }
}

// Whether the members of a set have a character.
fn has(members: &[Glyph], c: char) -> bool
    ensures { result ≡ has_character c members.now }
{
    let mut rest = members;
    while let Some((found, later)) = first_member(rest, c) {
        if found {
            return true;
        }
        rest = later;
    }
    false
}

// Whether the first member, a glyph or a range, has a character; and what stands behind it.
fn first_member(members: &[Glyph], c: char) -> Option<(bool, &[Glyph])>
    ensures { MatchOption result (members.now ≡ []) (λ x. (length x.1.now < length members.now) ×
        (has_character c members.now ≡ (x.0 || has_character c x.1.now))) }
{
    match members {
        [from, dash, to, later @ ..] if is_mark('-', *dash) => {
            Some((from.character <= c && c <= to.character, later))
        }
        [one, later @ ..] => Some((one.character == c, later)),
        [] => None,
    }
}
