// Texts on one line, without raw control bytes.
ghost use Rattle.std.specs.Prelude.{◌≡◌, ◌≢◌, ◌<◌, ◌≤◌, ◌+◌, ◌-◌, ◌^◌, ◌++◌, ◌∷◌, [], All, Ok, IfErr, IfOk, IfSome, MatchOption, None, OnOk, drop, encode_utf8, flat_map, length, position, slice_index};
ghost use Rattle.std.specs.String.{string_bytes};
ghost use Rattle.dired_text.specs.declared.escaping.EscapeError.TheVariants.{Memory as memory};
ghost use Rattle.dired_text.specs.Answers.{IsOrMemory};
ghost use Rattle.dired_text.specs.Escape.{escaped, spelled, octal, octal_byte, is_octal_digit, is_control, backslash, behind_backslash, Spells, PushesRaw, unescaped};

use crate::splitting::split_first;
use crate::{Memory, Text};
use std::alloc::Global;
use thiserror::Error;

/// Why a text is no escaped text.
#[derive(Clone, Copy, Debug, PartialEq, Eq, Error)]
pub enum EscapeError {
    /// A backslash that begins no escape, or a raw control byte, at this place, counted in bytes of the text from 0.
    #[error("bad escape at byte {0}")]
    BadEscape(u64),
    /// An allocation was refused.
    #[error("out of memory")]
    Memory,
}

/// The text on one line: `\` is written as `\\`, newline as `\n`, tab as `\t`, and each other control byte of ASCII as
/// `\` with three octal digits. In a link `>` is written as `\076`. All else stays.
pub fn escape(alloc: Global, text: &str, in_link: bool) -> Result<Text, Memory>
    ensures { IfOk result (λ t. t ≡ escaped in_link text.now) }
{
    let mut line = String::new(alloc);
    for c in text.chars() {
        push_escaped(&mut line, c, in_link)?;
    }
    Ok(Text::from_string(line))
}

/// The text that an escaped text stands for: `\\` is `\`, `\n` newline, `\t` tab, and `\` with three octal digits from
/// 001 to 177 that byte of ASCII.
///
/// # Errors
/// `BadEscape` at the first place, from the left, of a backslash that begins none of these, or of a raw control byte.
pub fn unescape(alloc: Global, text: &str) -> Result<Text, EscapeError>
    ensures { IsOrMemory memory (unescaped text.now) result }
{
    let mut plain = String::new(alloc);
    let mut place = 0;
    let mut rest = text;
    while let Some((raw, escape)) = split_first(rest, '\\') {
        push_raw(&mut plain, place, raw)?;
        place += raw.len() as u64;
        let Some((byte, later)) = read_escape(escape) else {
            return Err(EscapeError::BadEscape(place));
        };
        push_byte(&mut plain, byte)?;
        place += 1 + (escape.len() - later.len()) as u64;
        rest = later;
    }
    push_raw(&mut plain, place, rest)?;
    Ok(Text::from_string(plain))
}

/// Each text without NUL comes back: what `escape` makes of it stands for it.
pub fn escapes_come_back(text: &str, in_link: bool)
    ensures { All (λ b. b ≢ 0) text.now → unescaped (escaped in_link text.now) ≡ Ok text.now }
{}

// Pushes a character as it is written on a line.
fn push_escaped(line: &mut String, c: char, in_link: bool) -> Result<(), Memory>
    ensures { OnOk result (string_bytes line.new ≡ string_bytes line.old
        ++ flat_map (spelled in_link) (encode_utf8 c)) }
{
    match c {
        '\\' => line.push_str("\\\\")?,
        '\n' => line.push_str("\\n")?,
        '\t' => line.push_str("\\t")?,
        '\0'..='\x1f' | '\x7f' => push_octal(line, c)?,
        '>' if in_link => push_octal(line, c)?,
        _ => line.push(c)?,
    }
    Ok(())
}

// Pushes an ASCII character as `\` and three octal digits.
fn push_octal(line: &mut String, c: char) -> Result<(), Memory>
    requires { c < 128 }
    ensures { OnOk result (string_bytes line.new ≡ string_bytes line.old ++ backslash ∷ octal c) }
{
    let code = c as u8;
    line.push('\\')?;
    line.push(octal_digit(code / 64))?;
    line.push(octal_digit(code / 8 % 8))?;
    line.push(octal_digit(code % 8))?;
    Ok(())
}

fn octal_digit(digit: u8) -> char
    requires { digit < 8 }
    ensures { result ≡ 48 + digit }
{
    char::from(b'0' + digit)
}

// Pushes a text without backslashes, which begins at this place, as it stands.
fn push_raw(plain: &mut String, place: u64, raw: &str) -> Result<(), EscapeError>
    requires { place + length raw.now < 2 ^ 64 }
    ensures { PushesRaw place raw.now result (string_bytes plain.old) (string_bytes plain.new) }
{
    if let Some(control) = control_in(raw) {
        return Err(EscapeError::BadEscape(place + control as u64));
    }
    match plain.push_str(raw) {
        Ok(()) => Ok(()),
        Err(_) => Err(EscapeError::Memory),
    }
}

// The place of the first control byte.
fn control_in(text: &str) -> Option<usize>
    ensures place { result ≡ position is_control text.now }
    ensures within { IfSome result (λ place. place < length text.now) }
{
    text.bytes().position(|b| b < 32 || b == 127)
}

// Pushes a byte of ASCII. Only memory can be missing.
fn push_byte(plain: &mut String, byte: u8) -> Result<(), EscapeError>
    requires { byte < 128 }
    ensures ok { OnOk result (string_bytes plain.new ≡ string_bytes plain.old ++ byte ∷ []) }
    ensures err { IfErr result (λ e. e ≡ memory) }
{
    match plain.push(char::from(byte)) {
        Ok(()) => Ok(()),
        Err(_) => Err(EscapeError::Memory),
    }
}

// The byte that is spelled by a backslash and the head of this text, and the text behind the spelling.
fn read_escape(text: &str) -> Option<(u8, &str)>
    ensures read { MatchOption result (behind_backslash text.now ≡ None)
        (λ x. Spells text.now x.0 x.1.now) }
    ensures ascii { IfSome result (λ x. x.0 < 128) }
{
    match text.as_bytes() {
        [b'\\', ..] => Some((b'\\', text_behind(text, 1))),
        [b'n', ..] => Some((b'\n', text_behind(text, 1))),
        [b't', ..] => Some((b'\t', text_behind(text, 1))),
        [high, middle, low, ..] => {
            let byte = octal_value(*high, *middle, *low)?;
            Some((byte, text_behind(text, 3)))
        }
        _ => None,
    }
}

// The text behind so many bytes, the last of them ASCII.
fn text_behind(text: &str, count: usize) -> &str
    requires within { count ≤ length text.now }
    requires ascii { slice_index text.now (count - 1) < 128 }
    requires some { 0 < count }
    ensures { result.now ≡ drop count text.now }
{
    &text[count..]
}

// The number that three octal digits write, from 1 to 127.
fn octal_value(high: u8, middle: u8, low: u8) -> Option<u8>
    ensures { result ≡ octal_byte high middle low }
{
    if !is_octal(high) || !is_octal(middle) || !is_octal(low) {
        return None;
    }
    let value = u16::from(high - b'0') * 64 + u16::from(middle - b'0') * 8 + u16::from(low - b'0');
    if value < 1 || value > 127 {
        return None;
    }
    Some(value as u8)
}

fn is_octal(c: u8) -> bool
    ensures { result ≡ is_octal_digit c }
{
    b'0' <= c && c <= b'7'
}
