// The command at a line.
ghost use Rattle.std.specs.Prelude.{◌≡◌, ◌≤◌, IfOk, length};
ghost use Rattle.script_words.specs.Commands.{IsCommandAt, IsWordRead};
ghost use Rattle.script_words.specs.Marks.{HasMarks};

use crate::rows::{arguments, read_row};
use crate::word::{Word, word_of};
use crate::{Asked, CommandFault, Script, ScriptCause};
use std::alloc::Global;

/// What the command at this line of a script asks for, and the number of the line behind its last argument. Lines are counted
/// from 1.
///
/// # Errors
/// `Bad` with the line and the cause of what comes first: a line that is no command, too few lines behind it, and then the
/// arguments in their order.
pub fn read_command(alloc: Global, script: &Script, at: u32) -> Result<(Asked, u32), CommandFault>
    requires first { 1 ≤ at }
    requires last { at ≤ length script.now }
    ensures command { IsCommandAt script.now at result }
    ensures marks { IfOk result (λ read. HasMarks read.0.command) }
{
    match word_of(script.line(at)) {
        Some(word) => read_word(alloc, script, at, word),
        None => Err(CommandFault::Bad {
            line: at,
            cause: ScriptCause::UnknownCommand,
        }),
    }
}

// The command of a word that is this line.
fn read_word(
    alloc: Global,
    script: &Script,
    at: u32,
    word: Word,
) -> Result<(Asked, u32), CommandFault>
    requires first { 1 ≤ at }
    requires last { at ≤ length script.now }
    ensures { IsWordRead script.now at word result }
{
    let lines = script.lines();
    let last = at + arguments(word);
    if lines < last {
        return Err(CommandFault::Bad {
            line: lines + 1,
            cause: ScriptCause::MissingArgument,
        });
    }
    match read_row(alloc, script, at, word) {
        Ok(asked) => Ok((asked, last + 1)),
        Err(fault) => Err(fault),
    }
}

#[cfg(test)]
mod tests {
    use super::*;
    use crate::{ScriptFault, read_script};
    use emacs_regexp::RegexpFault;
    use find_words::FindFault;
    use rename_regexp::ToFault;

    // Scripts, and the line and the cause of the refusal of their first command.
    const REFUSALS: [(&str, u32, ScriptCause); 14] = [
        ("q", 1, ScriptCause::UnknownCommand),
        ("p\r\n", 1, ScriptCause::UnknownCommand),
        ("* c\n*", 3, ScriptCause::MissingArgument),
        ("find\n", 2, ScriptCause::MissingArgument),
        ("i\na\\q", 2, ScriptCause::BadArgument),
        ("* ?\nab", 2, ScriptCause::BadArgument),
        ("* c\n*\n \n", 3, ScriptCause::BadArgument),
        ("mark-extension\n\n", 2, ScriptCause::BadArgument),
        ("M\n08", 2, ScriptCause::BadArgument),
        ("M\n00644", 2, ScriptCause::BadArgument),
        ("s\n-x", 2, ScriptCause::BadArgument),
        (
            "% m\n\\(a",
            2,
            ScriptCause::BadRegexp(RegexpFault::Unclosed(0)),
        ),
        ("% R\na\n\\1", 3, ScriptCause::BadTo(ToFault::NoGroup(0))),
        (
            "find\n-name",
            2,
            ScriptCause::BadFind(FindFault::Bad { word: 2 }),
        ),
    ];

    // Scripts, and the line behind their first command.
    const COMMANDS: [(&str, u32); 7] = [
        ("p", 2),
        ("i\n.\n", 3),
        ("M\n0644\np", 3),
        ("% R\n\\(a\\)\nb\\1\np\n", 4),
        ("find\n-name '*.txt'", 3),
        ("!\n\n", 3),
        ("s\n-Alt\n", 3),
    ];

    fn read_first(alloc: Global, text: &str) -> Result<u32, CommandFault> {
        let Ok(script) = read_script(alloc, text.as_bytes()) else {
            return Err(CommandFault::Memory);
        };
        if script.lines() == 0 {
            return Err(CommandFault::Memory);
        }
        let (_, next) = read_command(alloc, &script, 1)?;
        Ok(next)
    }

    #[test]
    fn each_cause_comes_at_its_line(rt: HostRuntime) {
        for (text, line, cause) in REFUSALS {
            let refused = read_first(rt.alloc(), text);
            assert!(rt; refused == Err(CommandFault::Bad { line, cause }));
        }
        for (text, next) in COMMANDS {
            assert!(rt; read_first(rt.alloc(), text) == Ok(next));
        }
    }

    #[test]
    fn scripts_are_lines_of_utf_8(rt: HostRuntime) {
        let mut bytes = Vec::new(rt.alloc());
        for _ in 0..100_001 {
            bytes.push(b'\n').expect(&rt, "there is memory");
        }
        let many = read_script(rt.alloc(), bytes.as_slice());
        assert!(rt; matches!(&many, Err(ScriptFault::TooManyLines(100_001))));
        let most = read_script(rt.alloc(), &bytes.as_slice()[1..]);
        assert!(rt; matches!(&most, Ok(script) if script.lines() == 100_000));
        let other = read_script(rt.alloc(), b"p\n\xff\n");
        assert!(rt; matches!(&other, Err(ScriptFault::NotUtf8 { line: 2 })));
        let none = read_script(rt.alloc(), b"");
        assert!(rt; matches!(&none, Ok(script) if script.lines() == 0));
    }
}
