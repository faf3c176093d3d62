// Fields of a line, in which each byte that isn't printed is written as `\x` and two digits.
use crate::RowFault;
use dired_text::{Name, Path, Text};
use std::alloc::Global;
use std::str;

// How far an escape has been read.
#[derive(Clone, Copy)]
enum Reading {
    Plain,
    // behind a backslash
    Escape,
    // behind `\x`
    First,
    // behind `\x` and a digit of this value
    Second(u8),
}

/// The bytes that a field stands for: `\xHH` is the byte of that number, and `\e` nothing.
///
/// # Errors
/// `Bad` where a backslash begins none of these.
pub fn bytes_of(alloc: Global, field: &str) -> Result<Vec<u8>, RowFault> {
    let mut bytes = Vec::new(alloc);
    let mut reading = Reading::Plain;
    for byte in field.bytes() {
        reading = read_byte(&mut bytes, reading, byte)?;
    }
    match reading {
        Reading::Plain => Ok(bytes),
        _ => Err(RowFault::Bad),
    }
}

// Reads a byte of a field.
fn read_byte(bytes: &mut Vec<u8>, reading: Reading, byte: u8) -> Result<Reading, RowFault> {
    match reading {
        Reading::Plain if byte == b'\\' => Ok(Reading::Escape),
        Reading::Plain => {
            bytes.push(byte)?;
            Ok(Reading::Plain)
        }
        Reading::Escape => match byte {
            b'x' => Ok(Reading::First),
            b'e' => Ok(Reading::Plain),
            _ => Err(RowFault::Bad),
        },
        Reading::First => Ok(Reading::Second(digit_of(byte)?)),
        Reading::Second(high) => {
            let low = digit_of(byte)?;
            bytes.push(high.wrapping_mul(16).wrapping_add(low))?;
            Ok(Reading::Plain)
        }
    }
}

// The value of a digit of base 16.
fn digit_of(byte: u8) -> Result<u8, RowFault> {
    match byte {
        b'0'..=b'9' => Ok(byte - b'0'),
        b'a'..=b'f' => Ok(byte - b'a' + 10),
        _ => Err(RowFault::Bad),
    }
}

/// The text that a field stands for.
///
/// # Errors
/// `Bad` where it is no text of UTF-8.
pub fn text_of(alloc: Global, field: &str) -> Result<Text, RowFault> {
    let bytes = bytes_of(alloc, field)?;
    match str::from_utf8(&bytes) {
        Ok(text) => Ok(Text::copy_of(alloc, text)?),
        Err(_) => Err(RowFault::Bad),
    }
}

/// The path that a field stands for, whose names are joined by `/`.
///
/// # Errors
/// `Bad` where it is none.
pub fn path_of(alloc: Global, field: &str) -> Result<Path, RowFault> {
    let text = text_of(alloc, field)?;
    let mut names = Vec::new(alloc);
    for name in text.as_str().split('/') {
        match Name::new(alloc, name)? {
            Some(name) => names.push(name)?,
            None => return Err(RowFault::Bad),
        }
    }
    match Path::join(alloc, &names)? {
        Some(path) => Ok(path),
        None => Err(RowFault::Bad),
    }
}

/// The number that a field writes in decimal.
///
/// # Errors
/// `Bad` where it is none of 64 bits.
pub fn number_of(field: &str) -> Result<u64, RowFault> {
    match field.parse::<u64>() {
        Ok(number) => Ok(number),
        Err(_) => Err(RowFault::Bad),
    }
}

/// The mode that a field writes in octal.
///
/// # Errors
/// `Bad` where it is no number of 16 bits.
pub fn mode_of(field: &str) -> Result<u16, RowFault> {
    match u16::from_str_radix(field, 8) {
        Ok(mode) => Ok(mode),
        Err(_) => Err(RowFault::Bad),
    }
}

/// The time that a field writes, in seconds since 1970.
///
/// # Errors
/// `Bad` where it is no number of 64 bits.
pub fn time_of(field: &str) -> Result<i64, RowFault> {
    match field.parse::<i64>() {
        Ok(time) => Ok(time),
        Err(_) => Err(RowFault::Bad),
    }
}
