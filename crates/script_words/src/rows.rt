// What the commands are, by their words.
ghost use Rattle.std.specs.Prelude.{◌≡◌, ◌+◌, ◌≤◌, length};
ghost use Rattle.dired_text.specs.Answers.{IsOrMemory};
ghost use Rattle.script_words.specs.declared.fault.CommandFault.TheVariants.{Memory as memory};
ghost use Rattle.script_words.specs.Rows.{argued_row, arguments_of, asked_by, command_of, with_regexp as with_regexp_of};
ghost use Rattle.script_words.specs.Commands.{IsFindRead, IsRowRead};
ghost use Rattle.script_words.specs.Rows as row;

use crate::arguments::{
    directory, ending, mark, mode, path, predicate, regexp, switches, template,
};
use crate::word::{ArgumentWord, PlainWord, Word};
use crate::{Asked, Command, CommandFault, Commit, Remark, Script, Test};
use dired_text::Text;
use emacs_regexp::{Ast, spell};
use std::alloc::Global;

const STAR: u8 = b'*';

// The flag of deletion.
const FLAG: u8 = b'D';

/// The number of lines that stand behind a word as its arguments.
pub(crate) fn arguments(word: Word) -> u32
    ensures count { result ≡ arguments_of word }
    ensures most { result ≤ 2 }
{
    match word {
        Word::Plain(_) => 0,
        Word::Argument(ArgumentWord::ReplaceMark | ArgumentWord::RenameBy) => 2,
        Word::Argument(_) | Word::Find => 1,
    }
}

/// What the command of this word at this line asks for.
pub(crate) fn read_row(
    alloc: Global,
    script: &Script,
    at: u32,
    word: Word,
) -> Result<Asked, CommandFault>
    requires first { 1 ≤ at }
    requires last { at + arguments_of word ≤ length script.now }
    requires most { at ≤ 100_000 }
    ensures { IsRowRead script.now at word result }
{
    match word {
        Word::Plain(word) => Ok(just(command(word))),
        Word::Argument(word) => read_arguments(alloc, script, at, word),
        Word::Find => read_find(alloc, script, at),
    }
}

// `find`: a predicate.
fn read_find(alloc: Global, script: &Script, at: u32) -> Result<Asked, CommandFault>
    requires first { 1 ≤ at }
    requires last { at + 1 ≤ length script.now }
    requires most { at ≤ 100_000 }
    ensures { IsFindRead script.now at result }
{
    let line = at + 1;
    match predicate(alloc, line, script.line(line)) {
        Ok(predicate) => Ok(just(Command::Find(predicate))),
        Err(fault) => Err(fault),
    }
}

// The command of a word that stands alone.
fn command(word: PlainWord) -> Command
    ensures { result ≡ command_of word }
{
    match word {
        PlainWord::Mark => Command::Put(Some(STAR)),
        PlainWord::Flag => Command::Put(Some(FLAG)),
        PlainWord::Unmark => Command::Put(None),
        PlainWord::Toggle => Command::Change(Remark::Toggle),
        PlainWord::UnmarkAll => Command::Change(Remark::Clear),
        PlainWord::CountMarked => Command::Count,
        PlainWord::MarkDirectories => mark_where(STAR, Test::IsDirectory),
        PlainWord::MarkLinks => mark_where(STAR, Test::IsLink),
        PlainWord::MarkExecutables => mark_where(STAR, Test::IsExecutable),
        PlainWord::MarkSection => mark_where(STAR, Test::InSection),
        PlainWord::FlagBackups => mark_where(FLAG, Test::IsBackup),
        PlainWord::FlagAutoSaves => mark_where(FLAG, Test::IsAutoSave),
        PlainWord::FlagExcess => mark_where(FLAG, Test::IsExcess),
        PlainWord::Remove => Command::Commits(Commit::Remove),
        PlainWord::Kill => Command::Kill,
        PlainWord::Relist => Command::Relist(None),
        PlainWord::Print => Command::Print,
        PlainWord::Omit => Command::Omit,
        PlainWord::Undo => Command::Undo,
        PlainWord::ConfirmAll => Command::Confirm(None),
    }
}

fn mark_where(mark: u8, test: Test) -> Command
    ensures { result ≡ Command.MarkWhere mark test }
{
    Command::MarkWhere { mark, test }
}

// A command without a regexp.
fn just(command: Command) -> Asked
    ensures { result ≡ row.just command }
{
    Asked {
        command,
        pattern: None,
    }
}

// A command with one.
fn with_regexp(alloc: Global, command: Command, ast: &Ast) -> Result<Asked, CommandFault>
    ensures { IsOrMemory memory (Ok (with_regexp_of command ast.now)) result }
{
    let pattern = spell(alloc, ast)?;
    Ok(Asked {
        command,
        pattern: Some(pattern),
    })
}

// What is changed in the tree.
fn commits(commit: Commit) -> Asked
    ensures { result ≡ row.just (Command.Commits commit) }
{
    just(Command::Commits(commit))
}

// A command with arguments.
fn read_arguments(
    alloc: Global,
    script: &Script,
    at: u32,
    word: ArgumentWord,
) -> Result<Asked, CommandFault>
    requires first { 1 ≤ at }
    requires last { at + (argued_row word).arguments ≤ length script.now }
    requires most { at ≤ 100_000 }
    ensures { IsOrMemory memory ((argued_row word).read script.now at) result }
{
    let line = at + 1;
    let text = script.line(line);
    match word {
        ArgumentWord::At => Ok(just(Command::At(path(alloc, line, text)?))),
        ArgumentWord::UnmarkEach => Ok(change(Remark::ClearMark(mark(line, text)?))),
        ArgumentWord::ReplaceMark => replacement(script, at),
        ArgumentWord::MarkEnding => Ok(mark_by(Test::EndsWith(ending(alloc, line, text)?))),
        ArgumentWord::MarkNames => by_regexp(alloc, line, text, names(STAR)),
        ArgumentWord::FlagNames => by_regexp(alloc, line, text, names(FLAG)),
        ArgumentWord::MarkBytes => by_regexp(alloc, line, text, Command::MarkBytes),
        ArgumentWord::RenameBy => renaming(alloc, script, at),
        ArgumentWord::RenameTo => Ok(commits(Commit::RenameTo(directory(alloc, line, text)?))),
        ArgumentWord::SetMode => Ok(commits(Commit::SetMode(mode(line, text)?))),
        ArgumentWord::Insert => Ok(just(Command::Insert(directory(alloc, line, text)?))),
        ArgumentWord::TakeOut => Ok(just(Command::TakeOut(directory(alloc, line, text)?))),
        ArgumentWord::Turn => Ok(just(Command::Turn(directory(alloc, line, text)?))),
        ArgumentWord::RelistWith => Ok(just(Command::Relist(Some(switches(line, text)?)))),
        ArgumentWord::Shell => Ok(just(Command::Shell(Text::copy_of(alloc, text)?))),
        ArgumentWord::Confirm => Ok(just(Command::Confirm(Some(path(alloc, line, text)?)))),
        ArgumentWord::Edit => Ok(commits(Commit::Edit(Text::copy_of(alloc, text)?))),
    }
}

// A change of all marks.
fn change(remark: Remark) -> Asked
    ensures { result ≡ row.just (Command.Change remark) }
{
    just(Command::Change(remark))
}

// The files that pass a test get the mark `*`.
fn mark_by(test: Test) -> Asked
    ensures { result ≡ row.just (Command.MarkWhere 42 test) }
{
    just(mark_where(STAR, test))
}

// The files whose names match get a mark.
fn names(mark: u8) -> Command
    ensures { result ≡ Command.MarkWhere mark Test.NameMatches }
{
    mark_where(mark, Test::NameMatches)
}

// A command with the regexp on a line.
fn by_regexp(alloc: Global, line: u32, text: &str, command: Command) -> Result<Asked, CommandFault>
    ensures { IsOrMemory memory (asked_by command line text.now) result }
{
    let ast = regexp(alloc, line, text)?;
    with_regexp(alloc, command, &ast)
}

// `* c`: the old mark and the new one.
fn replacement(script: &Script, at: u32) -> Result<Asked, CommandFault>
    requires first { 1 ≤ at }
    requires last { at + 2 ≤ length script.now }
    requires most { at ≤ 100_000 }
    ensures { result ≡ (argued_row ArgumentWord.ReplaceMark).read script.now at }
{
    let old = mark(at + 1, script.line(at + 1))?;
    let new = mark(at + 2, script.line(at + 2))?;
    Ok(change(Remark::Replace { old, new }))
}

// `% R`: a regexp, and what its first match is replaced by.
fn renaming(alloc: Global, script: &Script, at: u32) -> Result<Asked, CommandFault>
    requires first { 1 ≤ at }
    requires last { at + 2 ≤ length script.now }
    requires most { at ≤ 100_000 }
    ensures { IsOrMemory memory
        ((argued_row ArgumentWord.RenameBy).read script.now at) result }
{
    let ast = regexp(alloc, at + 1, script.line(at + 1))?;
    let template = template(alloc, &ast, at + 2, script.line(at + 2))?;
    with_regexp(alloc, Command::Commits(Commit::RenameBy(template)), &ast)
}
