// What is read.
ghost use Rattle.std.specs.Prelude.{◌≡◌, ◌≤◌, MatchResult, IfOk, IfErr, Some, Ok, Err, length};
ghost use Rattle.dired_text.specs.Counts.{raised};
ghost use Rattle.dired_run.specs.Inputs.{input_of, max_buffer_bytes};
ghost use Rattle.run_status.specs.Statuses.{ByCause, IsRefusal};

use crate::{Counted, Status};
use dired_text::{Bytes, Shelf, ShelfEnd, Text};
use std::alloc::Global;

/// The most bytes of one buffer.
pub const MAX_BUFFER_BYTES: u64 = 67_108_864;

/// The bytes of a buffer.
///
/// # Errors
/// `Missing`, `TooLarge`, `ReadFault`, or want of memory.
pub fn read_input<H: Shelf>(alloc: Global, shelf: &mut H, name: &str) -> Result<Bytes, Status>
    ensures limit { IfOk result (λ bytes. length bytes ≤ max_buffer_bytes) }
    ensures read { H.Tells →
        let input = input_of (H.files shelf.old) name.now in
        MatchResult result (λ bytes. input ≡ Ok bytes) (λ status. ByCause status
        (Unit {0}) (λ _. ⊥) (λ failed. H.last_failed shelf.new ≡ Some failed)
        (input ≡ Err status)) }
    ensures files { H.Tells → H.files shelf.new ≡ H.files shelf.old }
    ensures count { let same = H.faults shelf.new ≡ H.faults shelf.old in
        MatchResult result (λ _. same) (λ status. ByCause status
        same (λ _. ⊥) (λ failed. H.faults shelf.new ≡ raised (H.faults shelf.old)) same) }
    ensures end { IfErr result IsRefusal }
{
    // The name is copied first, so that a failed read is never told as want of memory.
    let Ok(kept) = Text::copy_of(alloc, name) else {
        return Err(Status::Memory);
    };
    match shelf.read(alloc, name, MAX_BUFFER_BYTES) {
        Ok(bytes) => Ok(bytes),
        Err(ShelfEnd::Memory) => Err(Status::Memory),
        Err(ShelfEnd::TooLarge) => Err(Status::TooLarge {
            what: Counted::BufferBytes,
            number: MAX_BUFFER_BYTES + 1,
        }),
        Err(ShelfEnd::Absent) => Err(Status::Missing { name: kept }),
        Err(ShelfEnd::Failed) => Err(Status::ReadFault { name: kept }),
    }
}
