// Scripts as lines.
ghost use Rattle.std.specs.Prelude.{◌≡◌, ◌≤◌, length};
ghost use Rattle.dired_text.specs.Answers.{IsOrMemory};
ghost use Rattle.script_words.specs.declared.fault.ScriptFault.TheVariants.{Memory as memory};
ghost use Rattle.script_words.specs.Lines.{script_of, text_of};

use crate::ScriptFault;
use crate::splitting::{count_lines, split_line};
use dired_text::Text;
use std::alloc::Global;
use std::marker::Model;

/// The most lines of a script.
pub const MAX_LINES: u32 = 100_000;

/// A script, seen as the list of its lines.
#[derive(Debug, Drop)]
pub struct Script {
    lines: Vec<Text>,
}

impl Model for Script {
    ghost use Rattle.std.specs.Prelude.{List, ℕ, ◌≤◌, length};

    ghost Value = { List (List ℕ) };

    ghost view = { λ s. s.lines.items };

    ghost invariant = { λ s. length s.lines.items ≤ 100_000 };
}

impl Script {
    ghost use Rattle.std.specs.Prelude.{◌≡◌, ◌≤◌, length};
    ghost use Rattle.script_words.specs.Lines.{line_at};

    /// The number of lines.
    pub fn lines(&self) -> u32
        ensures count { result ≡ length self.now }
        ensures most { result ≤ 100_000 }
    {
        self.lines.len() as u32
    }

    /// The line of this number, counted from 1.
    pub fn line(&self, number: u32) -> &str
        requires first { 1 ≤ number }
        requires last { number ≤ length self.now }
        ensures { result.now ≡ line_at self.now number }
    {
        self.lines[number as usize - 1].as_str()
    }
}

/// The script that bytes write: UTF-8, where each newline ends a line. The last newline may be missing.
///
/// # Errors
/// `TooManyLines` where there are more than [`MAX_LINES`], and else `NotUtf8` with the first line that isn't UTF-8.
pub fn read_script(alloc: Global, bytes: &[u8]) -> Result<Script, ScriptFault>
    ensures { IsOrMemory memory (script_of bytes.now) result }
{
    let count = count_lines(bytes);
    if count > MAX_LINES as usize {
        return Err(ScriptFault::TooManyLines(count as u64));
    }
    let mut lines = Vec::new(alloc);
    let mut rest = bytes;
    let mut number = 1;
    while let Some((line, behind)) = split_line(rest) {
        let text = read_line(alloc, number, line)?;
        lines.push(text)?;
        number += 1;
        rest = behind;
    }
    Ok(Script { lines })
}

// The line of this number.
fn read_line(alloc: Global, number: u32, line: &[u8]) -> Result<Text, ScriptFault>
    ensures { IsOrMemory memory (text_of number line.now) result }
{
    match std::str::from_utf8(line) {
        Ok(text) => copy(alloc, text),
        Err(_) => Err(ScriptFault::NotUtf8 { line: number }),
    }
}

fn copy(alloc: Global, text: &str) -> Result<Text, ScriptFault>
    ensures { IsOrMemory memory (Ok text.now) result }
{
    Ok(Text::copy_of(alloc, text)?)
}
