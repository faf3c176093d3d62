// The mask of the process, for which the standard library has no call.
use host_looks::read_all;
use std::alloc::Global;
use std::fs;
use std::rt::Files;

// Where Linux tells of a process what it does (Linux, "proc_pid_status").
const STATUS: &str = "/proc/self/status";

const MOST_STATUS_BYTES: u64 = 65536;

// What is taken from a mode at most.
const ALL_BITS: u16 = 0o777;

/// The bits of a mode that the host takes from what this process makes (POSIX, "umask"), or all where it doesn't tell.
pub fn mask_of_process<R: Files>(rt: &R, alloc: Global) -> u16 {
    match told_mask(rt, alloc) {
        Some(mask) => mask,
        None => ALL_BITS,
    }
}

fn told_mask<R: Files>(rt: &R, alloc: Global) -> Option<u16> {
    let mut file = fs::open(rt, STATUS).ok()?;
    let bytes = read_all(alloc, &mut file, MOST_STATUS_BYTES).ok()??;
    mask_in(str::from_utf8(&bytes).ok()?)
}

// The mask that a line tells in octal.
fn mask_in(status: &str) -> Option<u16> {
    for line in status.split('\n') {
        if let Some(digits) = line.strip_prefix("Umask:\t") {
            return u16::from_str_radix(digits, 8).ok();
        }
    }
    None
}
