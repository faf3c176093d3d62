// Places in a text.
ghost use Rattle.std.specs.Prelude.{◌≡◌, ◌+◌, ◌≤◌, drop, length};
ghost use Rattle.std.specs.Str.{chars};
ghost use Rattle.emacs_regexp.specs.Places.{in_bytes as in_bytes_of, byte_place as byte_place_of};

use crate::RegexpFault;

// The fault with its place counted in bytes, where it is counted in characters of this text.
pub(crate) fn in_bytes(text: &str, fault: RegexpFault) -> RegexpFault
    ensures { result ≡ in_bytes_of (chars text.now) fault }
{
    match fault {
        RegexpFault::Unclosed(at) => RegexpFault::Unclosed(byte_place(text, at)),
        RegexpFault::Unopened(at) => RegexpFault::Unopened(byte_place(text, at)),
        RegexpFault::BadInterval(at) => RegexpFault::BadInterval(byte_place(text, at)),
        RegexpFault::BadClass(at) => RegexpFault::BadClass(byte_place(text, at)),
        RegexpFault::TrailingBackslash => RegexpFault::TrailingBackslash,
        RegexpFault::NotInProfile(at) => RegexpFault::NotInProfile(byte_place(text, at)),
        RegexpFault::Memory => RegexpFault::Memory,
    }
}

// How many bytes so many characters take that stand first.
fn byte_place(text: &str, count: u64) -> u64
    ensures { result ≡ byte_place_of (chars text.now) count }
{
    let mut rest = text;
    for _ in 0..count {
        rest = behind_first(rest);
    }
    (text.len() - rest.len()) as u64
}

// The text behind its first character.
fn behind_first(text: &str) -> &str
    ensures behind { chars result.now ≡ drop 1 (chars text.now) }
    ensures first { length text.now ≡ byte_place_of (chars text.now) 1 + length result.now }
{
    let mut chars = text.chars();
    match chars.next() {
        Some(_) => chars.as_str(),
        None => text,
    }
}

// The characters behind so many.
pub(crate) fn behind(text: &[char], count: usize) -> &[char]
    requires { count ≤ length text.now }
    ensures { result.now ≡ drop count text.now }
{
    &text[count..]
}
