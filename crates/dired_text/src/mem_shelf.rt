// Named inputs in memory.
ghost use Rattle.std.specs.Prelude.{◌≡◌, ◌≢◌, ◌≤◌, length, Err, IfOk, None, OnOk, OnErr, Some};
ghost use Rattle.std.specs.Option.{option_map};
ghost use Rattle.dired_text.specs.Counts.{raised};
ghost use Rattle.dired_text.specs.Outside.{ReadsAs, count_after, last_after};
ghost use Rattle.dired_text.specs.MemOutside.{file_of, shelf_files, shelf_schedule, shelf_reads, shelf_faults, shelf_last_failed, ShelfMayFail, ShelfObeys};

use crate::{Bytes, Memory, Shelf, ShelfEnd, Text};
use std::alloc::Global;

/// Named inputs in memory, with a schedule of reads that fail. No other read fails.
#[derive(Drop)]
pub struct MemShelf {
    alloc: Global,
    files: Vec<(Text, Bytes)>,
    fail: Vec<u64>,
    reads: u64,
    faults: u64,
    last_failed: Option<Text>,
}

impl MemShelf {
    /// A shelf of these files, names and bytes, of which the first of each name counts. `fail` lists the reads that
    /// fail, the first read being number 0. The name of a failed read is kept in memory of `alloc`.
    pub fn new(alloc: Global, files: Vec<(Text, Bytes)>, fail: Vec<u64>) -> Result<Self, Memory>
        ensures files { IfOk result (λ s. shelf_files s ≡ file_of files.items) }
        ensures schedule { IfOk result (λ s. shelf_schedule s ≡ fail.items) }
        ensures reads { IfOk result (λ s. shelf_reads s ≡ 0) }
        ensures faults { IfOk result (λ s. shelf_faults s ≡ 0) }
        ensures last_failed { IfOk result (λ s. shelf_last_failed s ≡ None) }
    {
        Ok(MemShelf {
            alloc,
            files,
            fail,
            reads: 0,
            faults: 0,
            last_failed: None,
        })
    }

    // Counts a failed read of this name. Without memory for the name it isn't counted.
    fn note_failure(&mut self, name: &str) -> Result<(), Memory>
        ensures files { shelf_files self.new ≡ shelf_files self.old }
        ensures failed { OnOk result (shelf_faults self.new ≡ raised (shelf_faults self.old)) }
        ensures schedule { (shelf_schedule self.new ≡ shelf_schedule self.old) ×
            (shelf_reads self.new ≡ shelf_reads self.old) }
        ensures named { OnOk result (shelf_last_failed self.new ≡ Some name.now) }
        ensures same { OnErr result (self.new ≡ self.old) }
    {
        self.last_failed = Some(Text::copy_of(self.alloc, name)?);
        self.faults = self.faults.saturating_add(1);
        Ok(())
    }
}

impl Shelf for MemShelf {
    ghost Tells = { Unit {0} };

    ghost files = { shelf_files };

    ghost last_failed = { shelf_last_failed };

    ghost faults = { shelf_faults };

    ghost MayFail = { ShelfMayFail };

    fn read(&mut self, alloc: Global, name: &str, limit: u64) -> Result<Bytes, ShelfEnd>
        ensures limit { IfOk result (λ bytes. length bytes ≤ limit) }
        ensures read { ReadsAs (shelf_files self.old name.now) limit result }
        ensures files { shelf_files self.new ≡ shelf_files self.old }
        ensures last_failed { shelf_last_failed self.new ≡
            last_after result name.now (shelf_last_failed self.old) }
        ensures count { shelf_faults self.new ≡ count_after result (shelf_faults self.old) }
        ensures may_fail { result ≡ Err ShelfEnd.Failed → ShelfMayFail self.old self.new }
        ensures obeys { ShelfObeys self.old self.new result }
    {
        let number = self.reads;
        self.reads = number.saturating_add(1);
        if self.fail.contains(&number) {
            return match self.note_failure(name) {
                Ok(()) => Err(ShelfEnd::Failed),
                Err(_) => Err(ShelfEnd::Memory),
            };
        }
        match bytes_of(&self.files, name) {
            None => Err(ShelfEnd::Absent),
            Some(bytes) => copy_within(alloc, bytes.as_slice(), limit),
        }
    }
}

// The bytes of the first file of this name.
fn bytes_of<'a>(files: &'a [(Text, Bytes)], name: &str) -> Option<&'a Bytes>
    ensures { option_map (λ b. b.now) result ≡ file_of files.now name.now }
{
    files
        .iter()
        .find(|file| file.0.as_str() == name)
        .map(|file| &file.1)
}

// A copy of the bytes, where they are within the limit.
fn copy_within(alloc: Global, bytes: &[u8], limit: u64) -> Result<Bytes, ShelfEnd>
    ensures read { ReadsAs (Some bytes.now) limit result }
    ensures answered { result ≢ Err ShelfEnd.Failed }
{
    if bytes.len() as u64 > limit {
        return Err(ShelfEnd::TooLarge);
    }
    match Bytes::copy_of(alloc, bytes) {
        Ok(copy) => Ok(copy),
        Err(_) => Err(ShelfEnd::Memory),
    }
}
