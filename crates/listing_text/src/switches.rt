// What a listing lists, and in which order.
ghost use Rattle.std.specs.Prelude.{◌≡◌};
ghost use Rattle.std.specs.List.{list_all, list_any};
ghost use Rattle.listing_text.specs.Switches.{is_switch as is_switch_byte, has_letter as has_letter_in, switches_of};

/// The switches of a listing (GNU coreutils manual, `ls`).
#[derive(Clone, Copy, Debug, PartialEq, Eq)]
pub struct Switches {
    /// Names that begin with a dot are listed as well.
    pub all: bool,
    /// The newest minute comes first, unless `by_size` is set.
    pub by_time: bool,
    /// The largest comes first.
    pub by_size: bool,
    /// The whole order is turned round.
    pub reverse: bool,
}

/// The switches of a text: `-` and one or more of the letters `A`, `l`, `t`, `S` and `r`. `l` switches on nothing. None
/// where the text isn't of this form.
pub fn read_switches(text: &str) -> Option<Switches>
    ensures { result ≡ switches_of text.now }
{
    match text.as_bytes() {
        [b'-', letters @ ..] => {
            if letters.is_empty() || !are_switches(letters) {
                return None;
            }
            Some(Switches {
                all: has_letter(letters, b'A'),
                by_time: has_letter(letters, b't'),
                by_size: has_letter(letters, b'S'),
                reverse: has_letter(letters, b'r'),
            })
        }
        _ => None,
    }
}

fn are_switches(letters: &[u8]) -> bool
    ensures { result ≡ list_all is_switch_byte letters.now }
{
    letters.iter().all(|b| is_switch(*b))
}

fn is_switch(b: u8) -> bool
    ensures { result ≡ is_switch_byte b }
{
    matches!(b, b'A' | b'l' | b't' | b'S' | b'r')
}

fn has_letter(letters: &[u8], letter: u8) -> bool
    ensures { result ≡ has_letter_in letter letters.now }
{
    letters.iter().any(|b| *b == letter)
}
