//! The head of a shot file.
ghost use Rattle.std.specs.Prelude.{◌≡◌, ◌++◌, ◌<◌, ◌≤◌, ℕ, List, length, drop, slice_index, IfSome, IsSome};
ghost use Rattle.oas_lex.specs.ShotText.{IsUnit, head};
ghost use Rattle.shot_reader.specs.Refusals.{BeginsHead};
ghost use Rattle.shot_reader.specs.Alike.{BeginAlike};

use crate::fields::{stands_at, unsigned_at};
use oas_lex::head_text;

/// How many bytes come before the unit: the magic bytes, and START up to its real of kind 0.
const BEFORE: usize = 19;
/// The least unit.
const LEAST: u64 = 2;
/// The greatest unit.
const MOST: u64 = 2_000_000;

/// The unit of the head that begins the bytes, and the head's length. None exactly where no head begins them.
pub fn head_of(bytes: &[u8]) -> Option<(u32, usize)>
    ensures found { IfSome result (λ r. IsUnit r.0 × (r.1 ≤ length bytes.now) × (bytes.now ≡ head r.0 ++ drop r.1 bytes.now)) }
    ensures read { (unit : ℕ) (after : List ℕ) → IsUnit unit → bytes.now ≡ head unit ++ after → IsSome result }
{
    let (unit, _after) = unsigned_at(bytes, BEFORE.min(bytes.len()));
    if unit < LEAST || MOST < unit || unit % 2 != 0 {
        return None;
    }
    let spelled = head_text(unit);
    if !stands_at(bytes, 0, spelled.bytes()) {
        return None;
    }
    Some((unit as u32, spelled.bytes().len()))
}

// How many bytes the two have in common from their beginning on.
fn in_common(bytes: &[u8], text: &[u8]) -> usize
    ensures alike { BeginAlike bytes.now text.now result }
    ensures longest { (count : ℕ) → BeginAlike bytes.now text.now count → count ≤ result }
{
    for (index, byte) in bytes.iter().enumerate() {
        if text.len() <= index || text[index] != *byte {
            return index;
        }
    }
    bytes.len()
}

// The byte at `at`, or 0 past the end.
fn byte_or_zero(bytes: &[u8], at: usize) -> u64
    ensures value { result ≡ slice_index bytes.now at }
    ensures byte { result < 256 }
{
    match bytes.get(at) {
        Some(byte) => u64::from(*byte),
        None => 0,
    }
}

// A unit whose head has as many bytes in common with these as that of any other unit. A unit is spelled in one to three
// groups of 7 bits, the lowest first; the first group is even, and the last isn't 0.
fn nearest_unit(bytes: &[u8]) -> u64
    ensures unit { IsUnit result }
    ensures nearest { (unit count : ℕ) → IsUnit unit → BeginAlike bytes.now (head unit) count → BeginAlike bytes.now (head result) count }
{
    let first = byte_or_zero(bytes, BEFORE);
    if first == 0 {
        return LEAST;
    }
    if first % 2 != 0 {
        return LEAST;
    }
    if first < 128 {
        return first;
    }
    let second = byte_or_zero(bytes, BEFORE + 1);
    if second == 0 {
        return first;
    }
    if second < 128 {
        return first % 128 + second * 128;
    }
    let third = byte_or_zero(bytes, BEFORE + 2);
    let low = first % 128 + second % 128 * 128;
    if third == 0 {
        return low + 16384;
    }
    if MOST < low + third * 16384 {
        return low + 16384;
    }
    low + third * 16384
}

/// The length of the longest prefix of the bytes that begins some head.
pub fn longest_head(bytes: &[u8]) -> usize
    ensures begins { BeginsHead bytes.now result }
    ensures longest { (count : ℕ) → BeginsHead bytes.now count → count ≤ result }
{
    let spelled = head_text(nearest_unit(bytes));
    in_common(bytes, spelled.bytes())
}
