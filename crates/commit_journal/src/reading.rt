// Numbers and texts at the front of bytes.
ghost use Rattle.std.specs.Prelude.{◌≡◌};
ghost use Rattle.std.specs.Int.{w16, w32};
ghost use Rattle.commit_journal.specs.Reading.{Gives, front_at, number_at, magic_at};

use crate::Version;
use crate::fault::Refusal;

// So many bytes, and the rest.
pub(crate) fn split(bytes: &[u8], count: usize) -> Result<(&[u8], &[u8]), Refusal>
    ensures { Gives (λ x. (x.0.now, x.1.now)) result (front_at count bytes.now) }
{
    if bytes.len() < count {
        return Err(Refusal::Unreadable);
    }
    Ok(bytes.split_at(count))
}

// A number in two bytes, and the rest.
pub(crate) fn read_two(bytes: &[u8]) -> Result<(u16, &[u8]), Refusal>
    ensures { Gives (λ x. (x.0, x.1.now)) result (number_at w16 bytes.now) }
{
    if bytes.len() < 2 {
        return Err(Refusal::Unreadable);
    }
    let (front, rest) = bytes.split_at(2);
    let number = u16::from_be_bytes([front[0], front[1]]);
    Ok((number, rest))
}

// A number in four bytes, and the rest.
pub(crate) fn read_four(bytes: &[u8]) -> Result<(u32, &[u8]), Refusal>
    ensures { Gives (λ x. (x.0, x.1.now)) result (number_at w32 bytes.now) }
{
    if bytes.len() < 4 {
        return Err(Refusal::Unreadable);
    }
    let (front, rest) = bytes.split_at(4);
    let number = u32::from_be_bytes([front[0], front[1], front[2], front[3]]);
    Ok((number, rest))
}

// The version that a journal's magic says, and the rest.
#[tactic(auto, unfolding(crate::specs::Reading::magic_at))]
pub(crate) fn read_magic(bytes: &[u8]) -> Result<(Version, &[u8]), Refusal>
    ensures { Gives (λ x. (x.0, x.1.now)) result (magic_at bytes.now) }
{
    let (front, rest) = split(bytes, 4)?;
    if front == b"WDJ1".as_slice() {
        return Ok((Version::One, rest));
    }
    if front == b"WDJ2".as_slice() {
        return Ok((Version::Two, rest));
    }
    Err(Refusal::Unreadable)
}
