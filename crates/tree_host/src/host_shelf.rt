// Named inputs of the host. They tell nothing of what they contain.
ghost use Rattle.std.specs.Prelude.{◌≡◌, ◌≤◌, IfOk, vec_len};

use dired_text::{Bytes, Shelf, ShelfEnd};
use host_looks::read_all;
use std::alloc::Global;
use std::fs;
use std::io::{ErrorKind, Read};
use std::rt::Files;
use tree_core::LookEnd;

/// Files by their names, and standard input by the name `-`. Links are followed, and pipes are read to their end.
#[derive(Drop)]
pub struct FileShelf<R: Files + Input + Drop> {
    rt: R,
    faults: u64,
}

impl<R: Files + Input + Drop> FileShelf<R> {
    /// The inputs of this runtime.
    pub fn new(rt: R) -> Self
        ensures { result.faults ≡ 0 }
    {
        FileShelf { rt, faults: 0 }
    }
}

impl<R: Files + Input + Drop> Shelf for FileShelf<R> {
    ghost use Rattle.std.specs.Prelude.{None};

    ghost Tells = { ⊥ };

    ghost files = { λ _ _. None };

    ghost last_failed = { λ _. None };

    ghost faults = { λ s. s.faults };

    ghost MayFail = { λ _ _. Unit {0} };

    fn read(&mut self, alloc: Global, name: &str, limit: u64) -> Result<Bytes, ShelfEnd> {
        match read_named(&self.rt, alloc, name, limit) {
            Ok(bytes) => Ok(Bytes::from_vec(bytes)),
            Err(ShelfEnd::Absent) => Err(ShelfEnd::Absent),
            Err(ShelfEnd::TooLarge) => Err(ShelfEnd::TooLarge),
            Err(ShelfEnd::Memory) => Err(ShelfEnd::Memory),
            Err(ShelfEnd::Failed) => {
                self.faults = self.faults.saturating_add(1);
                Err(ShelfEnd::Failed)
            }
        }
    }
}

fn read_named<R: Files + Input>(
    rt: &R,
    alloc: Global,
    name: &str,
    limit: u64,
) -> Result<Vec<u8>, ShelfEnd>
    ensures { IfOk result (λ bytes. vec_len bytes ≤ limit) }
{
    if name == "-" {
        return read_within(alloc, &mut rt.reader(), limit);
    }
    match fs::open(rt, name) {
        Ok(mut file) => read_within(alloc, &mut file, limit),
        Err(e) => match e.kind() {
            ErrorKind::NotFound | ErrorKind::NotADirectory => Err(ShelfEnd::Absent),
            _ => Err(ShelfEnd::Failed),
        },
    }
}

fn read_within<S: Read>(alloc: Global, source: &mut S, limit: u64) -> Result<Vec<u8>, ShelfEnd>
    ensures { IfOk result (λ bytes. vec_len bytes ≤ limit) }
{
    match read_all(alloc, source, limit) {
        Ok(Some(bytes)) => Ok(bytes),
        Ok(None) => Err(ShelfEnd::TooLarge),
        Err(LookEnd::Failed) => Err(ShelfEnd::Failed),
        Err(LookEnd::Memory) => Err(ShelfEnd::Memory),
    }
}
