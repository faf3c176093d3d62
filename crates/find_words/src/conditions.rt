// Conditions on a file.
ghost use Rattle.std.specs.Prelude.{◌≡◌, IfOk};
ghost use Rattle.find_words.specs.Conditions.{holds as holds_for, meets as meets_bound, days_meet as days_meet_bound, days_since as days_between};

use dired_text::Memory;
use name_patterns::{Pattern, matches};
use std::alloc::Global;
use tree_core::{Kind, Meta};

// What a number is compared with.
#[derive(Clone, Copy, Debug, PartialEq, Eq)]
pub(crate) enum Bound {
    Exactly(u64),
    MoreThan(u64),
    LessThan(u64),
}

// A condition on a file.
#[derive(Debug, Drop)]
pub(crate) enum Condition {
    // The last name matches a pattern.
    Name(Pattern),
    OfKind(Kind),
    // The size in units of 512 bytes, rounded up.
    Blocks(Bound),
    // The size in bytes.
    Bytes(Bound),
    // Whole days since the last change.
    Days(Bound),
    // The permission bits are these.
    ModeIs(u16),
    // These permission bits are set.
    ModeHas(u16),
    // The count of hard links.
    Links(Bound),
}

// Whether a condition holds of a file of this last name and these fields at a moment in seconds since 1970.
pub(crate) fn holds(
    alloc: Global,
    condition: &Condition,
    name: &[char],
    meta: &Meta,
    now: i64,
) -> Result<bool, Memory>
    ensures { IfOk result (λ b. b ≡ holds_for now name.now meta.now condition.now) }
{
    match condition {
        Condition::Name(pattern) => matches(alloc, pattern, name),
        Condition::OfKind(kind) => Ok(meta.kind == *kind),
        Condition::Blocks(bound) => Ok(meets(*bound, meta.size.div_ceil(512))),
        Condition::Bytes(bound) => Ok(meets(*bound, meta.size)),
        Condition::Days(bound) => Ok(days_meet(*bound, days_since(now, meta.mtime))),
        Condition::ModeIs(bits) => Ok(meta.mode == *bits),
        Condition::ModeHas(bits) => Ok(meta.mode & *bits == *bits),
        Condition::Links(bound) => Ok(meets(*bound, u64::from(meta.links))),
    }
}

fn meets(bound: Bound, number: u64) -> bool
    ensures { result ≡ meets_bound bound number }
{
    match bound {
        Bound::Exactly(n) => number == n,
        Bound::MoreThan(n) => n < number,
        Bound::LessThan(n) => number < n,
    }
}

// The whole days between two moments, rounded down. The difference stops at the ends of 64 bits.
fn days_since(now: i64, mtime: i64) -> i64
    ensures { result ≡ days_between now mtime }
{
    now.saturating_sub(mtime).div_euclid(86_400)
}

fn days_meet(bound: Bound, days: i64) -> bool
    ensures { result ≡ days_meet_bound bound days }
{
    match bound {
        Bound::Exactly(n) => i128::from(days) == i128::from(n),
        Bound::MoreThan(n) => i128::from(n) < i128::from(days),
        Bound::LessThan(n) => i128::from(days) < i128::from(n),
    }
}
