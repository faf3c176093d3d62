// What two buffers ask for.
ghost use Rattle.std.specs.Prelude.{◌≡◌, ◌≤◌, ◌⊎◌, MatchResult, IfErr, IfOk, Some, Ok, Err, length};
ghost use Rattle.dired_text.specs.Counts.{raised};
ghost use Rattle.tree_core.specs.declared.changes.Changes.TheVariants.{Edits};
ghost use Rattle.edit_words.specs.WellFormed.{AreAsked};
ghost use Rattle.run_status.specs.declared.status.Status.TheVariants.{Memory as memory};
ghost use Rattle.dired_run.specs.Inputs.{max_buffer_bytes};
ghost use Rattle.dired_run.specs.Requests.{request_of, asked_by, buffer_status as buffer_status_of};
ghost use Rattle.run_status.specs.Statuses.{ByCause, IsRefusal};

use crate::inputs::read_input;
use crate::{Counted, Status};
use command_words::Paths;
use dired_text::{Shelf, Text};
use std::alloc::Global;
use tree_core::{Confirmed, Edit, Items};
use wdired_buffer::{BufferFault, EditsFault, edits, read_buffer};

// The most edits of one commit.
const MAX_EDITS: usize = 262_144;

/// What two buffers ask for, with what was confirmed.
#[derive(Debug, Drop)]
pub struct Request {
    /// The edits, in the order of the lines.
    pub edits: Items<Edit>,
    pub confirmed: Confirmed,
    /// The entries whose names were emptied, in the order of the lines.
    pub flagged: Paths,
}

/// What the buffers of these names ask for.
///
/// # Errors
/// The first refusal: of BEFORE, of AFTER, of BEFORE's lines, of AFTER's lines, of the number of edits.
pub fn asked_for<H: Shelf>(
    alloc: Global,
    before: &Text,
    after: &Text,
    confirmed: Confirmed,
    shelf: &mut H,
) -> Result<Request, Status>
    ensures asked { H.Tells →
        let request = request_of (H.files shelf.old) before.now after.now confirmed in
        MatchResult result (λ asked. request ≡ Ok asked) (λ status. ByCause status
        (Unit {0}) (λ _. ⊥) (λ failed. H.last_failed shelf.new ≡ Some failed)
        (request ≡ Err status)) }
    ensures can { IfOk result (λ request. AreAsked (Edits request.edits)) }
    ensures count { let same = H.faults shelf.new ≡ H.faults shelf.old in
        MatchResult result (λ _. same) (λ status. ByCause status
        same (λ _. ⊥) (λ failed. H.faults shelf.new ≡ raised (H.faults shelf.old)) same) }
    ensures end { IfErr result IsRefusal }
{
    let before_bytes = match read_input(alloc, shelf, before.as_str()) {
        Ok(bytes) => bytes,
        Err(status) => return Err(status),
    };
    let after_bytes = match read_input(alloc, shelf, after.as_str()) {
        Ok(bytes) => bytes,
        Err(status) => return Err(status),
    };
    compare(
        alloc,
        before,
        before_bytes.as_slice(),
        after_bytes.as_slice(),
        confirmed,
    )
}

// What the bytes of the two buffers ask for, of which the first is the input of this name.
fn compare(
    alloc: Global,
    name: &Text,
    before: &[u8],
    after: &[u8],
    confirmed: Confirmed,
) -> Result<Request, Status>
    requires before { length before.now ≤ max_buffer_bytes }
    requires after { length after.now ≤ max_buffer_bytes }
    ensures asked { MatchResult result
        (λ asked. asked_by confirmed name.now before.now after.now ≡ Ok asked)
        (λ status. ByCause status (Unit {0}) (λ _. ⊥) (λ _. ⊥)
        (asked_by confirmed name.now before.now after.now ≡ Err status)) }
    ensures can { IfOk result (λ request. AreAsked (Edits request.edits)) }
    ensures end { IfErr result IsRefusal }
{
    let lines = match read_buffer(alloc, before) {
        Ok(lines) => lines,
        Err(fault) => return Err(buffer_status(name, fault)),
    };
    let edited = match edits(alloc, &lines, after) {
        Ok(edited) => edited,
        Err(EditsFault::Faulty { line, cause }) => {
            return Err(Status::Faulty {
                line,
                cause: cause.into(),
            });
        }
        Err(EditsFault::Memory) => return Err(Status::Memory),
    };
    if edited.edits.len() > MAX_EDITS {
        return Err(Status::TooLarge {
            what: Counted::Edits,
            number: edited.edits.len() as u64,
        });
    }
    Ok(Request {
        edits: Items::from_vec(edited.edits),
        confirmed,
        flagged: Paths::from_vec(edited.emptied),
    })
}

// The status of a buffer that isn't read, which is the input of this name.
fn buffer_status(name: &Text, fault: BufferFault) -> Status
    ensures { (result ≡ memory) ⊎ (result ≡ buffer_status_of name.now fault) }
{
    match fault {
        BufferFault::Bad { line, cause } => match name.copy() {
            Ok(name) => Status::BadBuffer { name, line, cause },
            Err(_) => Status::Memory,
        },
        BufferFault::TooManyLines(number) => Status::TooLarge {
            what: Counted::BufferLines,
            number,
        },
        BufferFault::Memory => Status::Memory,
    }
}
