// Whether a pattern matches a name.
ghost use Rattle.std.specs.Prelude.{◌≡◌, ◌+◌, ◌<◌, ◌&&◌, ◌||◌, if◌then◌else◌, IfOk, false, get_or, length, [], ◌∷◌, List};
ghost use Rattle.name_patterns.specs.Patterns.{matches as matches_name, stands_for as stands_for_character};
ghost use Rattle.name_patterns.specs.Rows.{row_of, is_any_run as is_any_run_piece};
ghost use Rattle.name_patterns.specs.declared.patterns.Piece.{Piece as APiece};

use crate::patterns::{Pattern, Piece, stands_for};
use dired_text::Memory;
use std::alloc::Global;

/// Whether a pattern matches the characters of a name as a whole. Takes no more steps than there are pairs of a piece and a
/// character, where a set takes as many as it has members.
pub fn matches(alloc: Global, pattern: &Pattern, name: &[char]) -> Result<bool, Memory>
    ensures { IfOk result (λ b. b ≡ matches_name pattern.now name.now) }
{
    let mut row = row_of_end(alloc, name)?;
    let mut rest = pattern.pieces();
    while let Some((piece, before)) = rest.split_last() {
        row = row_before(alloc, piece, name, &row)?;
        rest = before;
    }
    Ok(at(&row, name.len()))
}

// Whether the end of a pattern, which matches no character, matches each end of a name, the shortest first.
fn row_of_end(alloc: Global, name: &[char]) -> Result<Vec<bool>, Memory>
    ensures { IfOk result (λ row. row.items ≡ row_of [] name.now) }
{
    let mut row = Vec::new(alloc);
    row.push(true)?;
    let mut rest = name;
    while let Some((_, before)) = rest.split_last() {
        row.push(false)?;
        rest = before;
    }
    Ok(row)
}

// Whether a piece and what stands behind it match each end of a name, by the row of what stands behind it.
fn row_before(
    alloc: Global,
    piece: &Piece,
    name: &[char],
    row: &[bool],
) -> Result<Vec<bool>, Memory>
    requires { length row.now ≡ length name.now + 1 }
    ensures { (pieces : List APiece) → row.now ≡ row_of pieces name.now →
        IfOk result (λ next. next.items ≡ row_of (piece.now ∷ pieces) name.now) }
{
    let mut next = Vec::new(alloc);
    let behind = at(row, 0);
    next.push(matches_none(piece, behind))?;
    let mut rest = name;
    while let Some((c, before)) = rest.split_last() {
        let i = name.len() - rest.len();
        let shorter = at(row, i);
        let same = at(row, i + 1);
        let last = at(&next, i);
        next.push(matches_from(piece, *c, shorter, same, last))?;
        rest = before;
    }
    Ok(next)
}

fn at(row: &[bool], i: usize) -> bool
    requires { i < length row.now }
    ensures { result ≡ get_or row.now i false }
{
    row[i]
}

// Whether a piece and what stands behind it match no character, where this says whether what stands behind it does.
fn matches_none(piece: &Piece, behind: bool) -> bool
    ensures { result ≡ (is_any_run_piece piece.now && behind) }
{
    is_any_run(piece) && behind
}

// Whether a piece and what stands behind it match an end of a name that begins with a character: by whether what stands behind
// the piece matches the end without that character and with it, and whether both match the end without it.
fn matches_from(piece: &Piece, c: char, shorter: bool, same: bool, last: bool) -> bool
    ensures { result ≡ (if is_any_run_piece piece.now then (same || last)
        else (stands_for_character piece.now c && shorter)) }
{
    if is_any_run(piece) {
        same || last
    } else {
        stands_for(piece, c) && shorter
    }
}

fn is_any_run(piece: &Piece) -> bool
    ensures { result ≡ is_any_run_piece piece.now }
{
    match piece {
        Piece::AnyRun => true,
        Piece::AnyOne => false,
        Piece::One(_) => false,
        Piece::Set(_, _) => false,
    }
}
