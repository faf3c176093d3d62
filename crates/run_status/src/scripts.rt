// What is said of a command of a script that can't be carried out.
ghost use Rattle.std.specs.Prelude.{◌≡◌, ◌++◌, IfOk, codes};
ghost use Rattle.std.specs.String.{string_bytes};
ghost use Rattle.run_status.specs.Scripts.{find_text as find_text_of, regexp_text as regexp_text_of, script_line_text as script_line_text_of, script_text as script_text_of, to_text as to_text_of};

use dired_text::Memory;
use emacs_regexp::RegexpFault;
use find_words::FindFault;
use rename_regexp::ToFault;
use script_words::ScriptCause;
use std::alloc::Global;

/// What is said of a line of a script.
pub fn script_line_text(alloc: Global, line: u32, said: &str) -> Result<String, Memory>
    ensures { IfOk result (λ t. string_bytes t ≡ script_line_text_of line said.now) }
{
    Ok(format!(in alloc; "dired: script line {line}: {said}\n")?)
}

/// What is said of a cause: its name, and the fault that it carries.
pub fn script_text(alloc: Global, cause: ScriptCause) -> Result<String, Memory>
    ensures { IfOk result (λ t. string_bytes t ≡ script_text_of cause) }
{
    match cause {
        ScriptCause::UnknownCommand => Ok(String::from_str(alloc, "UnknownCommand")?),
        ScriptCause::MissingArgument => Ok(String::from_str(alloc, "MissingArgument")?),
        ScriptCause::BadArgument => Ok(String::from_str(alloc, "BadArgument")?),
        ScriptCause::NoLine => Ok(String::from_str(alloc, "NoLine")?),
        ScriptCause::NoFiles => Ok(String::from_str(alloc, "NoFiles")?),
        ScriptCause::BadRegexp(fault) => regexp_text(alloc, fault),
        ScriptCause::BadTo(fault) => to_text(alloc, fault),
        ScriptCause::BadFind(fault) => find_text(alloc, fault),
        ScriptCause::BothMarks => Ok(String::from_str(alloc, "BothMarks")?),
        ScriptCause::EmptyCommand => Ok(String::from_str(alloc, "EmptyCommand")?),
        ScriptCause::NoSuchDir => Ok(String::from_str(alloc, "NoSuchDir")?),
        ScriptCause::NotDirectory => Ok(String::from_str(alloc, "NotDirectory")?),
        ScriptCause::AlreadyThere => Ok(String::from_str(alloc, "AlreadyThere")?),
        ScriptCause::NotThere => Ok(String::from_str(alloc, "NotThere")?),
        ScriptCause::NothingToUndo => Ok(String::from_str(alloc, "NothingToUndo")?),
        ScriptCause::BadName => Ok(String::from_str(alloc, "BadName")?),
        ScriptCause::NotUtf8 => Ok(String::from_str(alloc, "NotUtf8")?),
    }
}

// What is said of an argument that is no regexp.
fn regexp_text(alloc: Global, fault: RegexpFault) -> Result<String, Memory>
    ensures { IfOk result (λ t. string_bytes t ≡ codes "BadRegexp " ++ regexp_text_of fault) }
{
    match fault {
        RegexpFault::Unclosed(at) => Ok(format!(in alloc; "BadRegexp Unclosed {at}")?),
        RegexpFault::Unopened(at) => Ok(format!(in alloc; "BadRegexp Unopened {at}")?),
        RegexpFault::BadInterval(at) => Ok(format!(in alloc; "BadRegexp BadInterval {at}")?),
        RegexpFault::BadClass(at) => Ok(format!(in alloc; "BadRegexp BadClass {at}")?),
        RegexpFault::TrailingBackslash => {
            Ok(String::from_str(alloc, "BadRegexp TrailingBackslash")?)
        }
        RegexpFault::NotInProfile(at) => Ok(format!(in alloc; "BadRegexp NotInProfile {at}")?),
        RegexpFault::Memory => Ok(String::from_str(alloc, "BadRegexp Memory")?),
    }
}

// What is said of an argument that is no replacement.
fn to_text(alloc: Global, fault: ToFault) -> Result<String, Memory>
    ensures { IfOk result (λ t. string_bytes t ≡ codes "BadTo " ++ to_text_of fault) }
{
    match fault {
        ToFault::BadBackslash(at) => Ok(format!(in alloc; "BadTo BadBackslash {at}")?),
        ToFault::NoGroup(at) => Ok(format!(in alloc; "BadTo NoGroup {at}")?),
        ToFault::Memory => Ok(String::from_str(alloc, "BadTo Memory")?),
    }
}

// What is said of an argument that is no predicate on files.
fn find_text(alloc: Global, fault: FindFault) -> Result<String, Memory>
    ensures { IfOk result (λ t. string_bytes t ≡ codes "BadFind " ++ find_text_of fault) }
{
    match fault {
        FindFault::Bad { word } => Ok(format!(in alloc; "BadFind Bad {word}")?),
        FindFault::Memory => Ok(String::from_str(alloc, "BadFind Memory")?),
    }
}

#[cfg(test)]
mod tests {
    use super::*;
    use crate::{Counted, Status};
    use std::test::Fail;

    // Lines of scripts with what is wrong there, and what is said of them.
    const REFUSALS: [(u32, ScriptCause, &str); 10] = [
        (
            1,
            ScriptCause::NothingToUndo,
            "dired: script line 1: NothingToUndo\n",
        ),
        (
            100_000,
            ScriptCause::MissingArgument,
            "dired: script line 100000: MissingArgument\n",
        ),
        (2, ScriptCause::NotUtf8, "dired: script line 2: NotUtf8\n"),
        (
            2,
            ScriptCause::BadRegexp(RegexpFault::Unclosed(0)),
            "dired: script line 2: BadRegexp Unclosed 0\n",
        ),
        (
            2,
            ScriptCause::BadRegexp(RegexpFault::NotInProfile(17)),
            "dired: script line 2: BadRegexp NotInProfile 17\n",
        ),
        (
            2,
            ScriptCause::BadRegexp(RegexpFault::TrailingBackslash),
            "dired: script line 2: BadRegexp TrailingBackslash\n",
        ),
        (
            3,
            ScriptCause::BadTo(ToFault::NoGroup(0)),
            "dired: script line 3: BadTo NoGroup 0\n",
        ),
        (
            3,
            ScriptCause::BadTo(ToFault::BadBackslash(4)),
            "dired: script line 3: BadTo BadBackslash 4\n",
        ),
        (
            2,
            ScriptCause::BadFind(FindFault::Bad { word: 2 }),
            "dired: script line 2: BadFind Bad 2\n",
        ),
        (5, ScriptCause::BadName, "dired: script line 5: BadName\n"),
    ];

    #[test]
    fn a_bad_script_names_its_line_and_cause(rt: HostRuntime) -> Result<(), Fail> {
        for (line, cause, text) in REFUSALS {
            let status = Status::BadScript { line, cause };
            assert_eq!(rt; status.number(), 17);
            assert!(rt; !status.has_fixed_text());
            let said = status.text(rt.alloc())?;
            assert_eq!(rt; said.as_str(), text);
        }
        Ok(())
    }

    #[test]
    fn a_script_may_be_too_large(rt: HostRuntime) -> Result<(), Fail> {
        let lines = Status::TooLarge {
            what: Counted::ScriptLines,
            number: 100_001,
        };
        let said = lines.text(rt.alloc())?;
        assert_eq!(rt; said.as_str(), "dired: too large: ScriptLines 100001\n");
        let bytes = Status::TooLarge {
            what: Counted::ScriptBytes,
            number: 16_777_217,
        };
        let said = bytes.text(rt.alloc())?;
        assert_eq!(rt; said.as_str(), "dired: too large: ScriptBytes 16777217\n");
        Ok(())
    }
}
