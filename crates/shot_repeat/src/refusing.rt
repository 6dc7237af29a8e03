//! Why bytes are no packed shot file.
ghost use Rattle.std.specs.Prelude.{◌≡◌, ◌⊎◌, ◌≤◌, ◌++◌, ℕ, List, length, drop, IsTrue, IsSome, IfSome};
ghost use Rattle.shot_reader.specs.Refusals.{IsNumber};
ghost use Rattle.shot_repeat.specs.Numbers.{NumberAt, NumbersAt, Left};
ghost use Rattle.shot_repeat.specs.Refusals.{IsWholePackRecord, HasWrittenCount, IsRepetition};

use crate::fields::{has, one_or_none};
use oas_lex::{RECTANGLE, TRAPEZOID, TRAPEZOID_A, TRAPEZOID_B};

/// The first fault of bytes that are no packed shot file, by the offset of the record that has it.
#[derive(Clone, Copy, Debug, PartialEq, Eq)]
pub enum PackBad {
    /// No head begins the bytes. The longest prefix that begins some head has this length.
    Head(usize),
    /// An id isn't one of a shot's record, bit 80 of the info byte is set, a repetition isn't of kind 9 or bit 0 of its
    /// delta is clear, or the bytes end before the record or inside it.
    Record(usize),
    /// A number isn't in its shortest form or is too wide, the bit for the west is set where the x is 0, or the id
    /// isn't the one for the deltas.
    Spelling(usize),
    /// A layer, a datatype, a width or a height is neither written here nor before.
    Undefined(usize),
    /// The layer and the datatype aren't those of the first record.
    Pair(usize),
    /// A repetition has more than 16,777,216 shots, or there are more than 33,554,432 shots up to here.
    Many(usize),
    /// The fields of a shot of the record are those of no shot.
    Illegal(usize),
    /// The END record isn't that of a shot file, or isn't the file's end.
    End(usize),
}

// Where the number that begins at `at` ends: after its first byte below 80 hex.
fn after_number(bytes: &[u8], at: usize) -> Option<usize>
    requires { at ≤ length bytes.now }
    ensures some { IfSome result (λ next. NumberAt bytes.now at next) }
    ensures all { (number after : List ℕ) → IsNumber number → drop at bytes.now ≡ number ++ after → IsSome result }
{
    let mut next = at;
    while next < bytes.len() {
        let byte = bytes[next];
        next += 1;
        if byte < 128 {
            return Some(next);
        }
    }
    None
}

// Where so many numbers that begin at `at` end.
fn after_numbers(bytes: &[u8], at: usize, count: usize) -> Option<usize>
    requires { at ≤ length bytes.now }
    ensures some { IfSome result (λ next. NumbersAt bytes.now at count next) }
    ensures there { (after : List ℕ) → Left (drop at bytes.now) count after → IsSome result }
    ensures after { (after : List ℕ) → Left (drop at bytes.now) count after → IfSome result (λ next. drop next bytes.now ≡ after) }
{
    let mut next = at;
    let mut done = 0;
    while done < count {
        match after_number(bytes, next) {
            Some(end) => next = end,
            None => return None,
        }
        done += 1;
    }
    Some(next)
}

// How many numbers the record of this id has with this info byte, those of its repetition aside.
fn numbers_of(id: u8, info: u8) -> Option<usize>
    ensures some { IfSome result (λ count. HasWrittenCount id info count) }
    ensures all { (count : ℕ) → HasWrittenCount id info count → result ≡ Some count }
{
    let written = one_or_none(has(info, 1))
        + one_or_none(has(info, 2))
        + one_or_none(has(info, 64))
        + one_or_none(has(info, 32))
        + one_or_none(has(info, 16))
        + one_or_none(has(info, 8));
    match id {
        RECTANGLE => Some(written),
        TRAPEZOID => Some(written + 2),
        TRAPEZOID_A | TRAPEZOID_B => Some(written + 1),
        _ => None,
    }
}

// Whether a repetition stands whole at `at`: its kind, its dimension, and a delta of two numbers.
fn repeats_at(bytes: &[u8], at: usize) -> bool
    requires { at ≤ length bytes.now }
    ensures yes { IsTrue result → (repetition after : List ℕ) × IsRepetition repetition × (drop at bytes.now ≡ repetition ++ after) }
    ensures all { (repetition after : List ℕ) → IsRepetition repetition → drop at bytes.now ≡ repetition ++ after → IsTrue result }
{
    if bytes.len() <= at {
        return false;
    }
    if bytes[at] != 9 {
        return false;
    }
    let Some(delta) = after_numbers(bytes, at + 1, 1) else {
        return false;
    };
    if bytes.len() <= delta {
        return false;
    }
    if bytes[delta] % 2 != 1 {
        return false;
    }
    after_numbers(bytes, delta, 2).is_some()
}

// Whether a record of a shot stands whole at `at`, however its numbers are spelled.
fn is_whole(bytes: &[u8], at: usize) -> bool
    requires { at ≤ length bytes.now }
    ensures yes { IsTrue result → IsWholePackRecord (drop at bytes.now) }
    ensures all { IsWholePackRecord (drop at bytes.now) → IsTrue result }
{
    if bytes.len() < at + 2 {
        return false;
    }
    let info = bytes[at + 1];
    if info >= 128 {
        return false;
    }
    let Some(count) = numbers_of(bytes[at], info) else {
        return false;
    };
    let Some(next) = after_numbers(bytes, at + 2, count) else {
        return false;
    };
    if !has(info, 4) {
        return true;
    }
    repeats_at(bytes, next)
}

/// The refusal of a record that isn't spelled as one is: Record where it isn't whole, and else Spelling.
pub(crate) fn record_refusal(bytes: &[u8], at: usize) -> PackBad
    requires { at ≤ length bytes.now }
    ensures { ((result ≡ PackBad.Spelling at) × IsWholePackRecord (drop at bytes.now)) ⊎ ((result ≡ PackBad.Record at) × (IsWholePackRecord (drop at bytes.now) → ⊥)) }
{
    if is_whole(bytes, at) {
        PackBad::Spelling(at)
    } else {
        PackBad::Record(at)
    }
}
