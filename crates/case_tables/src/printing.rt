// How fields are printed: each byte as it is, or as `\x` and two digits.
ghost use Rattle.std.specs.Prelude.{◌≡◌, ◌++◌, ◌<◌, IfOk, OnOk, flat_map};
ghost use Rattle.std.specs.String.{string_bytes};
ghost use Rattle.case_tables.specs.Fields.{head_text as head_text_of, field_text, field_byte as field_byte_of, spelled, digit_of};

use dired_text::Memory;
use std::alloc::Global;

/// What is printed where a case of this name begins.
pub fn head_text(alloc: Global, name: &str) -> Result<String, Memory>
    ensures { IfOk result (λ t. string_bytes t ≡ head_text_of name.now) }
{
    let mut text = String::from_str(alloc, "case ")?;
    push_field(&mut text, name.as_bytes())?;
    text.push_str("\n")?;
    Ok(text)
}

/// Prints a field: its bytes, or `\e` where it has none.
pub fn push_field(text: &mut String, bytes: &[u8]) -> Result<(), Memory>
    ensures { OnOk result (string_bytes text.new ≡ string_bytes text.old ++ field_text bytes.now) }
{
    if bytes.is_empty() {
        text.push_str("\\e")?;
        return Ok(());
    }
    push_field_bytes(text, bytes)
}

// Prints the bytes of a field.
fn push_field_bytes(text: &mut String, bytes: &[u8]) -> Result<(), Memory>
    ensures { OnOk result (
        string_bytes text.new ≡ string_bytes text.old ++ flat_map field_byte_of bytes.now) }
{
    for byte in bytes {
        push_field_byte(text, *byte)?;
    }
    Ok(())
}

/// Prints a byte of a field: as it is, or as `\x` and two digits.
pub fn push_field_byte(text: &mut String, byte: u8) -> Result<(), Memory>
    ensures { OnOk result (string_bytes text.new ≡ string_bytes text.old ++ field_byte_of byte) }
{
    if b'!' <= byte && byte <= b'~' && byte != b'\\' {
        text.push(char::from(byte))?;
    } else {
        push_spelled(text, byte)?;
    }
    Ok(())
}

// Prints a byte as `\x` and two digits.
fn push_spelled(text: &mut String, byte: u8) -> Result<(), Memory>
    ensures { OnOk result (string_bytes text.new ≡ string_bytes text.old ++ spelled byte) }
{
    text.push_str("\\x")?;
    text.push(digit(byte / 16))?;
    text.push(digit(byte % 16))?;
    Ok(())
}

// The digit of base 16 of this value.
fn digit(value: u8) -> char
    requires { value < 16 }
    ensures { result ≡ digit_of value }
{
    if value < 10 {
        char::from(b'0' + value)
    } else {
        char::from(b'a' + (value - 10))
    }
}
