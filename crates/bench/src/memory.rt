//! What the system tells of the program: its memory, and the time that the system itself took for it.

use std::fs::File;
use std::io::Read;
use std::str;

// The line of the greatest memory in what the system tells of a process, in kilobytes.
fn kilobytes_in(text: &str) -> Option<u64> {
    for line in text.lines() {
        if let Some(rest) = line.strip_prefix("VmHWM:") {
            return rest.split_whitespace().next()?.parse().ok();
        }
    }
    None
}

// What stands in this file of at most 4,096 bytes that can be read.
fn told<'a>(rt: &HostRuntime, path: &str, bytes: &'a mut [u8; 4096]) -> Option<&'a str> {
    let mut file = File::open(rt, path).ok()?;
    let count = file.read(bytes).ok()?;
    str::from_utf8(bytes.get(..count)?).ok()
}

// The hundredths of a second in the system of a line of /proc/self/stat (proc(5)): the thirteenth word after the
// program's name, which stands in brackets.
fn hundredths_in(text: &str) -> Option<u64> {
    let (_, words) = text.rsplit_once(')')?;
    words.split_whitespace().nth(12)?.parse().ok()
}

/// How many milliseconds the system has worked for the program so far, above all to give it memory: in steps of ten. 0
/// where it doesn't tell.
pub(crate) fn system_time(rt: &HostRuntime) -> u64 {
    let mut bytes = [0u8; 4096];
    match told(rt, "/proc/self/stat", &mut bytes) {
        Some(text) => hundredths_in(text).unwrap_or(0).saturating_mul(10),
        None => 0,
    }
}

/// The greatest memory that the program has taken so far, in megabytes. 0 where the system doesn't tell.
pub(crate) fn greatest_memory(rt: &HostRuntime) -> u64 {
    let mut bytes = [0u8; 4096];
    match told(rt, "/proc/self/status", &mut bytes) {
        Some(text) => kilobytes_in(text).unwrap_or(0) / 1024,
        None => 0,
    }
}
