// The groups of a drill.
ghost use Rattle.std.specs.Prelude.{◌≡◌, ◌+◌, ◌<◌, IfOk, IsTrue};
ghost use Rattle.dired_text.specs.Paths.{is_name};
ghost use Rattle.drill_tree.specs.Groups.{group_name as group_name_of, group_of};

use dired_text::{Memory, Name};
use std::alloc::Global;

/// What a group of a drill holds, by what its edits do.
#[derive(Clone, Copy, Debug, PartialEq, Eq)]
pub enum Group {
    /// Three files, each of which takes the name of the next one.
    Chain,
    /// So many files, each of which takes the name of the next one, and the last that of the first.
    Cycle(u32),
    /// A directory that is renamed, and a file in it that is.
    Nested,
    /// A file that replaces another one.
    Replacing,
    /// A directory that is renamed, and a file in it that takes its name.
    Swallowing,
}

impl Group {
    /// The group of this number.
    pub fn of(number: u32) -> Self
        ensures { result ≡ group_of number }
    {
        match number % 5 {
            0 => Group::Chain,
            1 => Group::Cycle(2 + number / 5 % 6),
            2 => Group::Nested,
            3 => Group::Replacing,
            _ => Group::Swallowing,
        }
    }
}

/// The name of a group's directory: `g` and its number in six digits.
pub(crate) fn group_name(alloc: Global, number: u32) -> Result<Name, Memory>
    requires { number < 1000000 }
    ensures { IfOk result (λ n. n ≡ group_name_of number) }
{
    let mut text = String::new(alloc);
    text.push('g')?;
    text.push(digit(number / 100_000))?;
    text.push(digit(number / 10_000 % 10))?;
    text.push(digit(number / 1_000 % 10))?;
    text.push(digit(number / 100 % 10))?;
    text.push(digit(number / 10 % 10))?;
    text.push(digit(number % 10))?;
    known_name(alloc, text.as_str())
}

// The name that a text is.
pub(crate) fn known_name(alloc: Global, text: &str) -> Result<Name, Memory>
    requires name { IsTrue (is_name text.now) }
    ensures { IfOk result (λ n. n ≡ text.now) }
{
    match Name::new(alloc, text)? {
        Some(name) => Ok(name),
        None => unreachable!(),
    }
}

// The character of a digit.
pub(crate) fn digit(value: u32) -> char
    requires { value < 10 }
    ensures { result ≡ 48 + value }
{
    char::from(b'0' + value as u8)
}
