// How answers are written.
use case_tables::push_field;
use dired_text::Memory;
use std::alloc::Global;

/// A text as a field.
pub fn field(alloc: Global, text: &str) -> Result<String, Memory> {
    let mut answer = String::new(alloc);
    push_field(&mut answer, text.as_bytes())?;
    Ok(answer)
}

/// A word.
pub fn word(alloc: Global, word: &str) -> Result<String, Memory> {
    Ok(String::from_str(alloc, word)?)
}

/// Puts a text as a field behind an answer, and a space before it unless it is the first.
pub fn push(answer: &mut String, text: &str) -> Result<(), Memory> {
    if !answer.is_empty() {
        answer.push_str(" ")?;
    }
    push_field(answer, text.as_bytes())
}
