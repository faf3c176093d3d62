// What a regexp is written of.
use dired_text::Memory;
use std::alloc::Global;
use std::marker::Model;

// What matches one character, or nothing at a place.
#[derive(Debug, Drop)]
pub(crate) enum Atom {
    // Any character but newline.
    Any,
    LineBegin,
    LineEnd,
    TextBegin,
    TextEnd,
    Char(char),
    // One of the members, or with `true` none of them.
    Set(bool, Members),
    Word,
    NotWord,
    Boundary,
    NotBoundary,
}

// A member of a set: the characters from the first to the last.
#[derive(Clone, Copy, Debug)]
pub(crate) enum Member {
    One(char),
    Range(char, char),
}

// The members of a set, seen as their list.
#[derive(Debug, Drop)]
pub(crate) struct Members {
    members: Vec<Member>,
}

impl Model for Members {
    ghost use Rattle.std.specs.Prelude.{List};
    ghost use Rattle.emacs_regexp.specs.declared.token.Member.{Member};

    ghost Value = { List Member };

    ghost view = { λ m. m.members.items };
}

impl Members {
    ghost use Rattle.std.specs.Prelude.{◌≡◌, ◌++◌, ◌∷◌, [], OnOk};

    pub(crate) fn new(alloc: Global) -> Self
        ensures { result ≡ [] }
    {
        Members {
            members: Vec::new(alloc),
        }
    }

    pub(crate) fn push(&mut self, member: Member) -> Result<(), Memory>
        ensures { OnOk result (self.new ≡ self.old ++ member ∷ []) }
    {
        self.members.push(member)?;
        Ok(())
    }

    pub(crate) fn as_slice(&self) -> &[Member]
        ensures { result.now ≡ self.now }
    {
        self.members.as_slice()
    }
}

// How often an item is repeated: as often as it can be, or lazily as seldom.
#[derive(Clone, Copy, Debug)]
pub(crate) enum Quantifier {
    Star,
    Plus,
    Optional,
    LazyStar,
    LazyPlus,
    LazyOptional,
    Times(u8),
    Between(u8, u8),
}

#[derive(Debug, Drop)]
pub(crate) enum Token {
    Atom(Atom),
    // Repeats the item that stands before it.
    Repeat(Quantifier),
    // Begins a group, with `true` one that has a number.
    Open(bool),
    Close,
    // The alternative to what stands before it.
    Or,
}
