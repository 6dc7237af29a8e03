//! How much memory the program took at most.
use std::fs::{File, Files};
use std::io::Read;

/// What stands before the number of kilobytes in what the system tells of a process.
const KEY: &[u8] = b"VmHWM:";

/// How many bytes of it are looked at.
const ROOM: usize = 4096;

// The first number after the key.
fn number_after_key(text: &[u8]) -> Option<u64> {
    let mut matched = 0usize;
    let mut number: Option<u64> = None;
    for byte in text {
        if matched < KEY.len() {
            matched = if KEY[matched] == *byte {
                matched + 1
            } else {
                0
            };
        } else if byte.is_ascii_digit() {
            let digit = u64::from(*byte - b'0');
            number = Some(number.unwrap_or(0).saturating_mul(10).saturating_add(digit));
        } else if number.is_some() {
            return number;
        }
    }
    number
}

/// The kilobytes that the program took at most, where the system tells them.
pub(crate) fn peak<R: Files>(rt: &R) -> Option<u64> {
    let mut file = File::open(rt, "/proc/self/status").ok()?;
    let mut text = [0u8; ROOM];
    let count = file.read(&mut text).ok()?;
    number_after_key(&text[..count])
}
