// The words that begin commands.
ghost use Rattle.std.specs.Prelude.{◌≡◌};
ghost use Rattle.script_words.specs.Words.{word_in as word_in_list, word_of as word_of_line};
ghost use Rattle.script_words.specs.WordTable.{entries_of};

// A word that is a command by itself.
#[derive(Clone, Copy, Debug, PartialEq, Eq)]
pub(crate) enum PlainWord {
    Mark,
    Flag,
    Unmark,
    Toggle,
    UnmarkAll,
    CountMarked,
    MarkDirectories,
    MarkLinks,
    MarkExecutables,
    MarkSection,
    FlagBackups,
    FlagAutoSaves,
    FlagExcess,
    Remove,
    Kill,
    Relist,
    Print,
    Omit,
    Undo,
    ConfirmAll,
}

// A word behind which arguments stand.
#[derive(Clone, Copy, Debug, PartialEq, Eq)]
pub(crate) enum ArgumentWord {
    At,
    UnmarkEach,
    ReplaceMark,
    MarkEnding,
    MarkNames,
    FlagNames,
    MarkBytes,
    RenameBy,
    RenameTo,
    SetMode,
    Insert,
    TakeOut,
    Turn,
    RelistWith,
    Shell,
    Confirm,
    Edit,
}

// The first line of a command.
#[derive(Clone, Copy, Debug, PartialEq, Eq)]
pub(crate) enum Word {
    Plain(PlainWord),
    Argument(ArgumentWord),
    // Its argument is a predicate on files.
    Find,
}

// The words, as a script writes them.
const WORDS: [(&str, Word); 38] = [
    ("at", Word::Argument(ArgumentWord::At)),
    ("m", Word::Plain(PlainWord::Mark)),
    ("d", Word::Plain(PlainWord::Flag)),
    ("u", Word::Plain(PlainWord::Unmark)),
    ("t", Word::Plain(PlainWord::Toggle)),
    ("U", Word::Plain(PlainWord::UnmarkAll)),
    ("* ?", Word::Argument(ArgumentWord::UnmarkEach)),
    ("* c", Word::Argument(ArgumentWord::ReplaceMark)),
    ("* N", Word::Plain(PlainWord::CountMarked)),
    ("* /", Word::Plain(PlainWord::MarkDirectories)),
    ("* @", Word::Plain(PlainWord::MarkLinks)),
    ("* *", Word::Plain(PlainWord::MarkExecutables)),
    ("* s", Word::Plain(PlainWord::MarkSection)),
    ("mark-extension", Word::Argument(ArgumentWord::MarkEnding)),
    ("~", Word::Plain(PlainWord::FlagBackups)),
    ("#", Word::Plain(PlainWord::FlagAutoSaves)),
    (".", Word::Plain(PlainWord::FlagExcess)),
    ("% m", Word::Argument(ArgumentWord::MarkNames)),
    ("% d", Word::Argument(ArgumentWord::FlagNames)),
    ("% g", Word::Argument(ArgumentWord::MarkBytes)),
    ("% R", Word::Argument(ArgumentWord::RenameBy)),
    ("R", Word::Argument(ArgumentWord::RenameTo)),
    ("M", Word::Argument(ArgumentWord::SetMode)),
    ("x", Word::Plain(PlainWord::Remove)),
    ("i", Word::Argument(ArgumentWord::Insert)),
    ("kill-section", Word::Argument(ArgumentWord::TakeOut)),
    ("$", Word::Argument(ArgumentWord::Turn)),
    ("k", Word::Plain(PlainWord::Kill)),
    ("g", Word::Plain(PlainWord::Relist)),
    ("s", Word::Argument(ArgumentWord::RelistWith)),
    ("p", Word::Plain(PlainWord::Print)),
    ("omit", Word::Plain(PlainWord::Omit)),
    ("undo", Word::Plain(PlainWord::Undo)),
    ("find", Word::Find),
    ("!", Word::Argument(ArgumentWord::Shell)),
    ("confirm", Word::Argument(ArgumentWord::Confirm)),
    ("confirm-all", Word::Plain(PlainWord::ConfirmAll)),
    ("edit", Word::Argument(ArgumentWord::Edit)),
];

// The word that is a whole line, or None where none is.
pub(crate) fn word_of(line: &str) -> Option<Word>
    ensures { result ≡ word_of_line line.now }
{
    word_in(&WORDS, line)
}

// The word of the first of these entries that is a line.
fn word_in(entries: &[(&str, Word)], line: &str) -> Option<Word>
    ensures { result ≡ word_in_list (entries_of entries.now) line.now }
{
    match entries {
        [] => None,
        [(text, word), later @ ..] => {
            if line == *text {
                Some(*word)
            } else {
                word_in(later, line)
            }
        }
    }
}
