// What settings hold.
ghost use Rattle.std.specs.Prelude.{◌≡◌, IfOk};
ghost use Rattle.omit_rules.specs.Values.{values_of, no_values};

use dired_text::{Memory, Text};
use emacs_regexp::Ast;
use std::alloc::Global;

/// The settings: which names are omitted, how many versions of a file are kept, and which command is guessed for files.
#[derive(Debug, Drop)]
pub struct Settings {
    pub(crate) omit_regexp: Option<Ast>,
    pub(crate) omit_extensions: Vec<Text>,
    pub(crate) kept_old: u32,
    pub(crate) kept_new: u32,
    pub(crate) guesses: Vec<Guess>,
}

// The command for files whose names all match a regexp.
#[derive(Debug, Drop)]
pub(crate) struct Guess {
    pub(crate) regexp: Ast,
    pub(crate) command: Text,
}

impl Settings {
    /// The settings where nothing is set: nothing is omitted, two versions are kept at each end, and nothing is guessed.
    pub fn none(alloc: Global) -> Result<Self, Memory>
        ensures { IfOk result (λ settings. values_of settings ≡ no_values) }
    {
        Ok(Settings {
            omit_regexp: None,
            omit_extensions: Vec::new(alloc),
            kept_old: 2,
            kept_new: 2,
            guesses: Vec::new(alloc),
        })
    }

    /// How many of the oldest versions of a file are kept.
    pub fn kept_old(&self) -> u32
        ensures { result ≡ (values_of self.now).kept_old }
    {
        self.kept_old
    }

    /// How many of the newest versions of a file are kept.
    pub fn kept_new(&self) -> u32
        ensures { result ≡ (values_of self.now).kept_new }
    {
        self.kept_new
    }
}
