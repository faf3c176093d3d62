// What a command asks for.
use dired_text::{Path, Text};
use find_words::Predicate;
use listing_text::Switches;
use rename_regexp::Template;

/// A change of all marks.
#[derive(Clone, Copy, Debug, PartialEq, Eq)]
pub enum Remark {
    /// Of the shown files those without a mark get `*`, and those with `*` lose it.
    Toggle,
    /// No file keeps a mark.
    Clear,
    /// No file keeps this mark.
    ClearMark(u8),
    /// Each file that has the old mark gets the new one.
    Replace { old: u8, new: u8 },
}

/// What a file is marked or flagged by.
#[derive(Debug, Drop)]
pub enum Test {
    IsDirectory,
    IsLink,
    /// It is a regular file that someone may execute.
    IsExecutable,
    /// It stands in the section of the current file, else in that of the root.
    InSection,
    /// Its last name ends with this text.
    EndsWith(Text),
    /// Its name is that of a backup.
    IsBackup,
    /// Its name is that of an auto-save file.
    IsAutoSave,
    /// Its name is that of a numeric backup that isn't kept.
    IsExcess,
    /// Its last name matches the pattern.
    NameMatches,
}

/// What is changed in the tree.
#[derive(Debug, Drop)]
pub enum Commit {
    /// The chosen files whose last name matches the pattern get the name that the template gives.
    RenameBy(Template),
    /// The chosen files are moved to this path, or into this directory.
    RenameTo(Path),
    /// The chosen files that aren't links get this mode.
    SetMode(u16),
    /// The flagged files are removed.
    Remove,
    /// What the input of this name, an edited listing, asks for is done.
    Edit(Text),
}

/// A command of a script (GNU Emacs Manual, "Dired").
#[derive(Debug, Drop)]
pub enum Command {
    /// Makes this file the current one.
    At(Path),
    /// Gives the current file this mark, or none.
    Put(Option<u8>),
    /// Changes all marks.
    Change(Remark),
    /// Gives this mark to the shown files that pass the test.
    MarkWhere { mark: u8, test: Test },
    /// Marks the shown files whose bytes match the pattern.
    MarkBytes,
    /// Inserts the section of this directory.
    Insert(Path),
    /// Takes the section of this directory out.
    TakeOut(Path),
    /// Hides the section of this directory, or shows it where it is hidden.
    Turn(Path),
    /// Takes the marked lines out.
    Kill,
    /// Lists again, with these switches where there are some.
    Relist(Option<Switches>),
    /// The buffer becomes the list of the files that meet this predicate.
    Find(Predicate),
    /// Prints how many shown files are marked.
    Count,
    /// Prints the buffer.
    Print,
    /// Turns omitting on or off.
    Omit,
    /// Undoes the last command that may be undone.
    Undo,
    /// Confirms that this file may be replaced by the next commit, or that any may.
    Confirm(Option<Path>),
    /// Changes the tree.
    Commits(Commit),
    /// Hands texts with the chosen files to the shell. Where the text is empty, the command is guessed.
    Shell(Text),
}

/// A command, and the pattern of its regexp as `regex` reads it, where it has one.
#[derive(Debug, Drop)]
pub struct Asked {
    pub command: Command,
    pub pattern: Option<Text>,
}
