// What the definitions of reading and of writing a line have to do with each other.
ghost use Rattle.std.specs.Prelude.{◌≡◌, ◌≤◌, Some, Ok, ℕ, ℤ};
ghost use Rattle.listing_text.specs.Grammar.{IsLineText, IsLawful, as_shown};
ghost use Rattle.listing_text.specs.Listed.{line_text_of};
ghost use Rattle.listing_text.specs.Reading.{line_of};
ghost use Rattle.listing_text.specs.declared.line.Line.{Line as line_type};
ghost use Rattle.listing_text.specs.Dates.{minute_text, minute_of as minute_of_text, shown_minute};

use crate::{Line, Widths};

/// Reading a line is its grammar: a text is read as a mark and a line exactly where it shows that line behind that mark.
pub fn lines_are_the_grammar(text: &[u8])
    ensures taken { (mark : ℕ) → (line : line_type) → IsLineText mark line text.now →
        line_of text.now ≡ Ok (mark, line) }
    ensures shown { (mark : ℕ) → (line : line_type) → line_of text.now ≡ Ok (mark, line) →
        IsLineText mark line text.now }
{}

/// What [`line_text`](crate::line_text) writes of a lawful line, at any widths, is read as the same mark and the same line,
/// with the minute that is shown.
pub fn lines_come_back(mark: u8, line: &Line, widths: &Widths)
    ensures { 32 ≤ mark → mark ≤ 126 → IsLawful line.now →
        line_of (line_text_of mark line.now widths.now) ≡ Ok (mark, as_shown line.now) }
{}

/// The text of a minute shows that minute, or the end of the years 1 to 9998 that is nearest to it. And a text that shows
/// a minute is the text of that minute, so one minute has one text.
pub fn dates_come_back(minute: i64, text: &[u8])
    ensures shown { minute_of_text (minute_text minute) ≡ Some (shown_minute minute) }
    ensures read { (m : ℤ) → minute_of_text text.now ≡ Some m → (minute_text m ≡ text.now) ×
        (shown_minute m ≡ m) }
{}
