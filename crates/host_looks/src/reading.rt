// Whole sources.
ghost use Rattle.std.specs.Prelude.{◌≤◌, IfOk, IfSome, vec_len};
ghost use Rattle.std.specs.Io.{ReadsAtMost};

use std::alloc::Global;
use std::io::{ErrorKind, Read};
use tree_core::LookEnd;

// How many bytes are read at once.
const CHUNK: usize = 65536;

/// All bytes of a source, or None where there are more than the limit.
pub fn read_all<S: Read>(
    alloc: Global,
    source: &mut S,
    limit: u64,
) -> Result<Option<Vec<u8>>, LookEnd>
    ensures { IfOk result (λ found. IfSome found (λ bytes. vec_len bytes ≤ limit)) }
{
    let mut bytes = Vec::new(alloc);
    let mut chunk = vec![in alloc; 0; CHUNK]?;
    for _ in 0..u64::MAX {
        let count = read_some(source, &mut chunk)?;
        if count == 0 {
            return Ok(Some(bytes));
        }
        bytes.extend_from_slice(&chunk[..count])?;
        if bytes.len() as u64 > limit {
            return Ok(None);
        }
    }
    Err(LookEnd::Failed)
}

/// The next bytes of a source, at most as many as there is room for.
pub fn read_some<S: Read>(source: &mut S, room: &mut [u8]) -> Result<usize, LookEnd>
    ensures { ReadsAtMost result room.new }
{
    for _ in 0..u64::MAX {
        match source.read(room) {
            Ok(count) => return Ok(count),
            Err(e) if e.kind() == ErrorKind::Interrupted => {}
            Err(_) => return Err(LookEnd::Failed),
        }
    }
    Err(LookEnd::Failed)
}
