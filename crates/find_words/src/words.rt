// The words of a predicate's text.
ghost use Rattle.std.specs.Prelude.{◌≡◌, ◌∷◌, [], List, ℕ, IfOk, OnOk};
ghost use Rattle.std.specs.Str.{chars};
ghost use Rattle.find_words.specs.Words.{is_blank as is_blank_character, past as place_past, past_quoted as place_past_quoted, words_of as words_of_text};
ghost use Rattle.find_words.specs.WordReading.{words_behind, as_words};

use crate::word::Word;
use dired_text::Memory;
use std::alloc::Global;
use std::mem;

// The words of a text.
#[derive(Drop)]
pub(crate) struct Words {
    // Those that are whole.
    pub(crate) whole: Vec<Word>,
    // Whether each quote is closed. Where one isn't, one more word stands at the end.
    pub(crate) is_closed: bool,
}

// Where a reader stands: between words, or in a word, of which it has this, there outside quotes or between them.
#[derive(Drop)]
pub(crate) enum Place {
    Between,
    Bare(Word),
    Quoted(Word),
}

// What was read of a text: the whole words, and the place behind them.
#[derive(Drop)]
pub(crate) struct WordReader {
    alloc: Global,
    whole: Vec<Word>,
    place: Place,
}

// The words of a text. They stand between blanks, which are spaces and tabs; a word may hold parts in single quotes, which
// are taken as they are.
pub(crate) fn words_of(alloc: Global, text: &str) -> Result<Words, Memory>
    ensures { IfOk result (λ words. as_words words ≡ words_of_text (chars text.now)) }
{
    let characters = characters(alloc, text)?;
    let mut reader = WordReader::new(alloc);
    let mut rest = characters.as_slice();
    while let Some((c, later)) = rest.split_first() {
        reader.take(*c)?;
        rest = later;
    }
    reader.end()
}

// The characters of a text.
pub(crate) fn characters(alloc: Global, text: &str) -> Result<Vec<char>, Memory>
    ensures { IfOk result (λ v. v.items ≡ chars text.now) }
{
    let characters: Vec<char> = text.chars().collect(alloc)?;
    Ok(characters)
}

impl WordReader {
    fn new(alloc: Global) -> Self
        ensures { (cs : List ℕ) → words_behind result cs ≡ words_of_text cs }
    {
        WordReader {
            alloc,
            whole: Vec::new(alloc),
            place: Place::Between,
        }
    }

    // Takes one character more.
    fn take(&mut self, c: char) -> Result<(), Memory>
        ensures { OnOk result ((cs : List ℕ) → words_behind self.old (c ∷ cs) ≡
            words_behind self.new cs) }
    {
        match mem::replace(&mut self.place, Place::Between) {
            Place::Between => {
                if !is_blank(c) {
                    self.place = past(Word::new(self.alloc), c)?;
                }
            }
            Place::Bare(word) => {
                if is_blank(c) {
                    self.whole.push(word)?;
                } else {
                    self.place = past(word, c)?;
                }
            }
            Place::Quoted(word) => self.place = past_quoted(word, c)?,
        }
        Ok(())
    }

    // The words, where the text ends here.
    fn end(self) -> Result<Words, Memory>
        ensures { IfOk result (λ words. as_words words ≡ words_behind self []) }
    {
        let mut whole = self.whole;
        match self.place {
            Place::Between => Ok(Words {
                whole,
                is_closed: true,
            }),
            Place::Bare(word) => {
                whole.push(word)?;
                Ok(Words {
                    whole,
                    is_closed: true,
                })
            }
            Place::Quoted(_) => Ok(Words {
                whole,
                is_closed: false,
            }),
        }
    }
}

// Where a reader stands behind a character of a word, outside quotes.
fn past(word: Word, c: char) -> Result<Place, Memory>
    ensures { IfOk result (λ place. place ≡ place_past word c) }
{
    let mut word = word;
    if c == '\'' {
        return Ok(Place::Quoted(word));
    }
    word.push(c)?;
    Ok(Place::Bare(word))
}

// Where it stands behind a character between quotes.
fn past_quoted(word: Word, c: char) -> Result<Place, Memory>
    ensures { IfOk result (λ place. place ≡ place_past_quoted word c) }
{
    let mut word = word;
    if c == '\'' {
        return Ok(Place::Bare(word));
    }
    word.push(c)?;
    Ok(Place::Quoted(word))
}

// Space and tab.
fn is_blank(c: char) -> bool
    ensures { result ≡ is_blank_character c }
{
    c == ' ' || c == '\t'
}
