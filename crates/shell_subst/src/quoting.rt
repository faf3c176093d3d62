// Names as words of the shell.
ghost use Rattle.std.specs.Prelude.{◌≡◌, ◌⊎◌, ◌++◌, IfOk, OnOk, flat_map, if◌then◌else◌, [], codes};
ghost use Rattle.std.specs.List.{list_all};
ghost use Rattle.std.specs.String.{string_bytes};
ghost use Rattle.shell_subst.specs.Quoting.{is_plain as is_plain_byte, quoted, within_quotes, argument};

use dired_text::{Memory, Text};
use std::alloc::Global;

/// The name as one word of a command of the shell (POSIX, Shell Command Language, "Quoting"), with `./` in front where
/// it begins with `-`. A word of ASCII letters, digits and `_-./,:=@%+` stays as it is, and any other stands in single
/// quotes, where `'` is written `'\''`. The empty name stays empty.
pub fn quote(alloc: Global, name: &str) -> Result<Text, Memory>
    ensures { IfOk result (λ t. t ≡ quoted name.now) }
{
    let mut word = String::new(alloc);
    if is_plain_text(name) {
        word.push_str(front_of(name))?;
        word.push_str(name)?;
    } else {
        word.push_str("'")?;
        word.push_str(front_of(name))?;
        push_within_quotes(&mut word, name)?;
        word.push_str("'")?;
    }
    Ok(Text::from_string(word))
}

// What is put before a name so that no program takes it for an option.
fn front_of(name: &str) -> &'static str
    ensures front { argument name.now ≡ result.now ++ name.now }
    ensures is { (result.now ≡ []) ⊎ (result.now ≡ codes "./") }
{
    match name.as_bytes() {
        [b'-', ..] => "./",
        _ => "",
    }
}

// Whether the shell takes each byte as itself.
fn is_plain_text(text: &str) -> bool
    ensures { result ≡ list_all is_plain_byte text.now }
{
    text.bytes().all(is_plain)
}

fn is_plain(byte: u8) -> bool
    ensures { result ≡ is_plain_byte byte }
{
    match byte {
        b'A'..=b'Z' | b'a'..=b'z' | b'0'..=b'9' => true,
        b'_' | b'-' | b'.' | b'/' | b',' | b':' | b'=' | b'@' | b'%' | b'+' => true,
        _ => false,
    }
}

// Pushes a text as it stands between single quotes.
fn push_within_quotes(word: &mut String, text: &str) -> Result<(), Memory>
    ensures { OnOk result (string_bytes word.new ≡ string_bytes word.old
        ++ flat_map within_quotes text.now) }
{
    for c in text.chars() {
        match c {
            '\'' => word.push_str("'\\''")?,
            _ => word.push(c)?,
        }
    }
    Ok(())
}
