// Which calls fail, by the numbers of the calls.
ghost use Rattle.std.specs.Prelude.{◌≡◌, IfSome, IfNone, true, not, is_some, if◌then◌else◌};
ghost use Rattle.std.specs.Option.{unwrap_or};
ghost use Rattle.tree_core.specs.FileTree.{next_after};
ghost use Rattle.mem_tree.specs.Records.{scheduled, is_listed, NeedsMore};

use tree_core::Change;

/// What becomes of a changing call.
#[derive(Clone, Copy, Debug, PartialEq, Eq)]
pub struct Fate {
    pub is_done: bool,
    pub is_ok: bool,
    ghost ok_is_done: { is_ok ≡ true → is_done ≡ true },
}

// What the schedule says of a changing call.
fn entry_of(failing: &[(u64, bool)], call: u64) -> Option<bool>
    ensures { result ≡ scheduled failing.now call }
{
    failing
        .iter()
        .find(|entry| entry.0 == call)
        .map(|entry| entry.1)
}

/// What becomes of a changing call by the schedule.
pub fn fate_of(failing: &[(u64, bool)], call: u64) -> Fate
    ensures ok { result.is_ok ≡ not (is_some (scheduled failing.now call)) }
    ensures done { result.is_done ≡ unwrap_or (scheduled failing.now call) true }
{
    match entry_of(failing, call) {
        None => Fate {
            is_done: true,
            is_ok: true,
        },
        Some(is_done) => Fate {
            is_done,
            is_ok: false,
        },
    }
}

/// Whether the schedule names a look.
pub fn names_look(failing: &[u64], call: u64) -> bool
    ensures { result ≡ is_listed failing.now call }
{
    failing.iter().any(|listed| *listed == call)
}

/// The next file number behind the call, or None where there is none.
pub fn number_after(change: &Change, next: u64, is_done: bool) -> Option<u64>
    ensures some { IfSome result (λ n. n ≡ (if is_done then next_after change.now next else next)) }
    ensures none { IfNone result (NeedsMore change.now next) }
{
    if !is_done {
        return Some(next);
    }
    match change {
        Change::WriteFile(..) => next.checked_add(1),
        _ => Some(next),
    }
}
