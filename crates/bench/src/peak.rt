//! How much memory the program has had.

use std::alloc::Alloc;
use std::fs;
use std::fs::Files;

/// Where the system says it.
const STATUS: &str = "/proc/self/status";

/// The most memory that the program had at any time, in units of 1,024 bytes, where the system tells.
pub fn read<R: Files + Alloc>(rt: &R) -> Option<u128> {
    match fs::read_to_string(rt, STATUS) {
        Ok(status) => peak_in(status.as_str()),
        Err(_) => None,
    }
}

/// The number behind `VmHWM:`, on a line of its own behind the first.
pub fn peak_in(status: &str) -> Option<u128> {
    let (_, behind) = status.split_once("\nVmHWM:")?;
    behind.split_whitespace().next()?.parse().ok()
}
