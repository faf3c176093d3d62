// What a match is replaced by.
use std::marker::Model;

// A part of a template.
#[derive(Clone, Copy, Debug)]
pub(crate) enum Piece {
    Char(char),
    // The whole match.
    Whole,
    // What the group of this number matched, from 1 to 9.
    Group(u8),
}

/// What a match is replaced by, seen as the list of its pieces: characters, the whole match, and groups.
#[derive(Debug, Drop)]
pub struct Template {
    pieces: Vec<Piece>,
}

impl Model for Template {
    ghost use Rattle.std.specs.Prelude.{List};
    ghost use Rattle.rename_regexp.specs.declared.template.Piece.{Piece};

    ghost Value = { List Piece };

    ghost view = { λ t. t.pieces.items };
}

impl Template {
    ghost use Rattle.std.specs.Prelude.{◌≡◌};

    pub(crate) fn of_pieces(pieces: Vec<Piece>) -> Self
        ensures { result ≡ pieces.items }
    {
        Template { pieces }
    }

    pub(crate) fn pieces(&self) -> &[Piece]
        ensures { result.now ≡ self.now }
    {
        self.pieces.as_slice()
    }
}
