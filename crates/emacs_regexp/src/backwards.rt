// A text that is written from its end on.
use dired_text::{Memory, Text};
use std::alloc::Global;
use std::marker::Model;

// A text that is written from its end on, seen as its characters.
#[derive(Drop)]
pub(crate) struct Backwards {
    characters: Vec<char>,
}

impl Model for Backwards {
    ghost use Rattle.std.specs.Prelude.{List, ℕ, reverse};

    ghost Value = { List ℕ };

    ghost view = { λ b. reverse b.characters.items };
}

impl Backwards {
    ghost use Rattle.std.specs.Prelude.{◌≡◌, ◌∷◌, ◌++◌, [], IfOk, OnOk, encode_utf8_all};

    pub(crate) fn new(alloc: Global) -> Self
        ensures { result ≡ [] }
    {
        Backwards {
            characters: Vec::new(alloc),
        }
    }

    // Puts a character in front.
    pub(crate) fn put(&mut self, c: char) -> Result<(), Memory>
        ensures { OnOk result (self.new ≡ c ∷ self.old) }
    {
        self.characters.push(c)?;
        Ok(())
    }

    // Puts a piece of ASCII in front.
    pub(crate) fn put_piece(&mut self, piece: &[u8]) -> Result<(), Memory>
        ensures { OnOk result (self.new ≡ piece.now ++ self.old) }
    {
        let mut rest = piece;
        while let Some((byte, before)) = rest.split_last() {
            self.put(char::from(*byte))?;
            rest = before;
        }
        Ok(())
    }

    // The text.
    pub(crate) fn text(&self, alloc: Global) -> Result<Text, Memory>
        ensures { IfOk result (λ t. t ≡ encode_utf8_all self.now) }
    {
        let mut text = String::new(alloc);
        let mut rest = self.characters.as_slice();
        while let Some((c, before)) = rest.split_last() {
            text.push(*c)?;
            rest = before;
        }
        Ok(Text::from_string(text))
    }
}
