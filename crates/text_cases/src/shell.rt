// Commands for the shell.
use crate::answer::{field, push, word};
use case_tables::{RowFault, text_of};
use shell_subst::{SubstFault, commands, quote};
use std::alloc::Global;

/// What is answered to a row of names and commands: the quoted name, or the commands that a text makes of names.
pub fn answer(alloc: Global, fields: &[&str]) -> Result<String, RowFault> {
    match fields {
        ["quote", name] => Ok(field(
            alloc,
            quote(alloc, text_of(alloc, name)?.as_str())?.as_str(),
        )?),
        ["commands", text, names @ ..] => made(alloc, text_of(alloc, text)?.as_str(), names),
        _ => Err(RowFault::Bad),
    }
}

fn made(alloc: Global, text: &str, words: &[&str]) -> Result<String, RowFault> {
    let mut names = Vec::new(alloc);
    for word in words {
        names.push(text_of(alloc, word)?)?;
    }
    match commands(alloc, text, &names) {
        Ok(texts) => {
            let mut answer = String::new(alloc);
            for text in &texts {
                push(&mut answer, text.as_str())?;
            }
            Ok(answer)
        }
        Err(SubstFault::Both) => Ok(word(alloc, "refused: both marks")?),
        Err(SubstFault::NoFiles) => Ok(word(alloc, "refused: no files")?),
        Err(SubstFault::EmptyCommand) => Ok(word(alloc, "refused: empty command")?),
        Err(SubstFault::Memory) => Err(RowFault::Memory),
    }
}
