// Which sub-lists of the pending calls there are images of.
ghost use Rattle.std.specs.Prelude.{◌≡◌, ◌≤◌, ◌<◌, ◌^◌, ◌++◌, IfOk};
ghost use Rattle.mem_tree.specs.Choices.{takes, has_bit as has_bit_of, choices_of, by_bits, by_length, by_omission};

use dired_text::Memory;
use std::alloc::Global;

/// Which calls of a list are in a sub-list, by their places from 0.
#[derive(Clone, Copy, Debug, PartialEq, Eq, Drop)]
pub enum Choice {
    /// Those whose bits of the number are set.
    Bits(u64),
    /// So many first ones.
    First(usize),
    /// All but the one at a place.
    AllBut(usize),
}

impl Choice {
    /// Whether the call at a place is in the sub-list.
    pub fn takes(self, place: usize) -> bool
        ensures { result ≡ takes self place }
    {
        match self {
            Choice::Bits(number) => has_bit(number, place),
            Choice::First(count) => place < count,
            Choice::AllBut(left_out) => place != left_out,
        }
    }
}

// Whether a bit of a number is set.
fn has_bit(number: u64, place: usize) -> bool
    ensures { result ≡ has_bit_of number place }
{
    place < 64 && (number >> place) & 1 == 1
}

// The numbers of all sub-lists of so many calls.
fn all_bits(alloc: Global, count: usize) -> Result<Vec<Choice>, Memory>
    requires { count ≤ 10 }
    ensures { IfOk result (λ v. v.items ≡ by_bits count) }
{
    Ok(
        (0..1u64 << count)
            .map(|number| Choice::Bits(number))
            .collect(alloc)?,
    )
}

// Each prefix, by its length, and then each list with one call left out.
fn prefixes_and_omissions(alloc: Global, count: usize) -> Result<Vec<Choice>, Memory>
    requires { count < 2 ^ 63 }
    ensures { IfOk result (λ v. v.items ≡ by_length count ++ by_omission count) }
{
    Ok(
        (0..count + 1)
            .map(|length| Choice::First(length))
            .chain((0..count).map(|place| Choice::AllBut(place)))
            .collect(alloc)?,
    )
}

/// The sub-lists of so many calls: of at most ten calls all, by the numbers whose bits say which calls are in it; of more
/// each prefix, by its length, and then each list with one call left out.
pub fn choices(alloc: Global, count: usize) -> Result<Vec<Choice>, Memory>
    requires { count < 2 ^ 63 }
    ensures { IfOk result (λ v. v.items ≡ choices_of count) }
{
    if count <= 10 {
        all_bits(alloc, count)
    } else {
        prefixes_and_omissions(alloc, count)
    }
}
