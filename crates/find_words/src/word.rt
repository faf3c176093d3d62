// A word of a text.
use dired_text::Memory;
use std::alloc::Global;
use std::marker::Model;

// A word, seen as the list of its characters.
#[derive(Debug, Drop)]
pub(crate) struct Word {
    characters: Vec<char>,
}

impl Model for Word {
    ghost use Rattle.std.specs.Prelude.{List, ℕ};

    ghost Value = { List ℕ };

    ghost view = { λ w. w.characters.items };
}

impl Word {
    ghost use Rattle.std.specs.Prelude.{◌≡◌, ◌++◌, ◌∷◌, [], OnOk};

    pub(crate) fn new(alloc: Global) -> Self
        ensures { result ≡ [] }
    {
        Word {
            characters: Vec::new(alloc),
        }
    }

    pub(crate) fn push(&mut self, c: char) -> Result<(), Memory>
        ensures { OnOk result (self.new ≡ self.old ++ c ∷ []) }
    {
        self.characters.push(c)?;
        Ok(())
    }

    pub(crate) fn as_slice(&self) -> &[char]
        ensures { result.now ≡ self.now }
    {
        self.characters.as_slice()
    }
}
