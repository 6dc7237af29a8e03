//! The fields of one record, each in its one spelling.
ghost use Rattle.std.specs.Prelude.{◌≡◌, ◌+◌, ◌^◌, ◌<◌, ◌≤◌, ◌++◌, ℕ, ℤ, List, Option, length, drop, get_or, is_some, unsigned_abs, IsTrue, ◌↔◌};
ghost use Rattle.oas_lex.specs.Spelling.{unsigned_text};
ghost use Rattle.oas_lex.specs.ShotText.{id_for};
ghost use Rattle.shot_repeat.specs.Records.{info_of, IsNarrowNumber, IsNarrowPlace, IsNarrowRepetition, IsNarrow, number_text, place_text, step_code, steps_text, repetition_text, record_text};
ghost use Rattle.shot_repeat.specs.Refusals.{has, one_or_none};
ghost use Rattle.shot_repeat.specs.declared.record.PackRecord.{PackRecord as Written};
ghost use Rattle.shot_repeat.specs.declared.record.Repetition.{Repetition as Repeats};

use crate::record::{KIND, PackRecord, Repetition, info_of, step_code};
use oas_lex::id_for;
use shot_reader::{delta_at, end_where, has_left, has_right, past_end, signed_at, unsigned_at};

/// Whether the bit of this weight is set.
pub(crate) fn has(info: u8, weight: u8) -> bool
    requires { 0 < weight }
    ensures { result ≡ has info weight }
{
    info / weight % 2 == 1
}

/// 1 where it is there, and else 0.
pub(crate) fn one_or_none(is_there: bool) -> usize
    ensures value { result ≡ one_or_none is_there }
    ensures most { result ≤ 1 }
{
    if is_there { 1 } else { 0 }
}

// The unsigned field at `at`, where it is written, and the offset after it.
fn number_at(bytes: &[u8], at: usize, is_there: bool) -> (Option<u64>, usize)
    ensures narrow { IsNarrowNumber result.0 }
    ensures spelled { result.1 ≤ length bytes.now → (at ≤ result.1) × (drop at bytes.now ≡ number_text result.0 ++ drop result.1 bytes.now) }
    ensures read { (field : Option ℕ) (after : List ℕ) → IsNarrowNumber field → is_there ≡ is_some field → at ≤ length bytes.now
        → drop at bytes.now ≡ number_text field ++ after
        → (result.0 ≡ field) × (drop result.1 bytes.now ≡ after) × (result.1 ≤ length bytes.now) }
{
    if !is_there {
        return (None, at);
    }
    let (value, next) = unsigned_at(bytes, at);
    (Some(value), next)
}

// The x or y at `at`, where it is written, and the offset after it.
fn place_at(bytes: &[u8], at: usize, is_there: bool) -> (Option<i64>, usize)
    ensures narrow { IsNarrowPlace result.0 }
    ensures spelled { result.1 ≤ length bytes.now → (at ≤ result.1) × (drop at bytes.now ≡ place_text result.0 ++ drop result.1 bytes.now) }
    ensures read { (field : Option ℤ) (after : List ℕ) → IsNarrowPlace field → is_there ≡ is_some field → at ≤ length bytes.now
        → drop at bytes.now ≡ place_text field ++ after
        → (result.0 ≡ field) × (drop result.1 bytes.now ≡ after) × (result.1 ≤ length bytes.now) }
{
    if !is_there {
        return (None, at);
    }
    let (value, next) = signed_at(bytes, at);
    (Some(value), next)
}

// The x of a step, by the first number of its spelling.
fn step_of(code: u64) -> i64
    requires { code < 2 ^ 63 }
    ensures narrow { unsigned_abs result < 2 ^ 61 }
    ensures read { (x : ℤ) → code ≡ step_code x → result ≡ x }
{
    let magnitude = (code / 4) as i64;
    if code / 2 % 2 == 1 {
        -magnitude
    } else {
        magnitude
    }
}

// The numbers of the repetition at `at`, after its kind, and the offset after them.
fn steps_at(bytes: &[u8], at: usize) -> (Repetition, usize)
    ensures narrow { IsNarrowRepetition (Some result.0) }
    ensures spelled { result.1 ≤ length bytes.now → (at ≤ result.1) × (drop at bytes.now ≡ steps_text result.0 ++ drop result.1 bytes.now) }
    ensures read { (repetition : Repeats) (after : List ℕ) → IsNarrowRepetition (Some repetition) → at ≤ length bytes.now
        → drop at bytes.now ≡ steps_text repetition ++ after
        → (result.0 ≡ repetition) × (drop result.1 bytes.now ≡ after) × (result.1 ≤ length bytes.now) }
{
    let (more, after_more) = unsigned_at(bytes, at);
    let (code, after_code) = unsigned_at(bytes, after_more);
    let (y, after_y) = signed_at(bytes, after_code);
    let x = step_of(code);
    let next = end_where(bytes, step_code(x) == code, after_y);
    (Repetition { more, x, y }, next)
}

// The repetition at `at`, where it is written, and the offset after it.
fn repetition_at(bytes: &[u8], at: usize, is_there: bool) -> (Option<Repetition>, usize)
    ensures narrow { IsNarrowRepetition result.0 }
    ensures spelled { result.1 ≤ length bytes.now → (at ≤ result.1) × (drop at bytes.now ≡ repetition_text result.0 ++ drop result.1 bytes.now) }
    ensures read { (field : Option Repeats) (after : List ℕ) → IsNarrowRepetition field → is_there ≡ is_some field → at ≤ length bytes.now
        → drop at bytes.now ≡ repetition_text field ++ after
        → (result.0 ≡ field) × (drop result.1 bytes.now ≡ after) × (result.1 ≤ length bytes.now) }
{
    if !is_there {
        return (None, at);
    }
    if bytes.len() <= at {
        return (None, past_end(bytes));
    }
    if bytes[at] != KIND {
        return (None, past_end(bytes));
    }
    let (repetition, next) = steps_at(bytes, at + 1);
    (Some(repetition), next)
}

// The byte at `at`, or 0 past the end.
fn byte_at(bytes: &[u8], at: usize) -> u8
    ensures { result ≡ get_or bytes.now at 0 }
{
    match bytes.get(at) {
        Some(byte) => *byte,
        None => 0,
    }
}

// Whether a record of these fields begins with this id and this info byte.
fn opens_as(written: &PackRecord, id: u8, info: u8) -> bool
    ensures { IsTrue result ↔ ((id ≡ id_for written.now.left_delta written.now.right_delta) × (info ≡ info_of written.now)) }
{
    if id_for(written.left_delta, written.right_delta) != id {
        return false;
    }
    info_of(written) == info
}

/// The record at `at`, and the offset after it, which is past the end where none is spelled there.
pub(crate) fn record_at(bytes: &[u8], at: usize) -> (PackRecord, usize)
    requires { at < length bytes.now }
    ensures narrow { IsNarrow result.0 }
    ensures spelled { result.1 ≤ length bytes.now → (at < result.1) × (drop at bytes.now ≡ record_text result.0 ++ drop result.1 bytes.now) }
    ensures read { (r : Written) (after : List ℕ) → IsNarrow r → drop at bytes.now ≡ record_text r ++ after
        → (result.0 ≡ r) × (result.1 ≤ length bytes.now) }
{
    let id = byte_at(bytes, at);
    let info = byte_at(bytes, at + 1);
    let start = at + 2;
    let (layer, after_layer) = number_at(bytes, start, has(info, 1));
    let (datatype, after_datatype) = number_at(bytes, after_layer, has(info, 2));
    let (width, after_width) = number_at(bytes, after_datatype, has(info, 64));
    let (height, after_height) = number_at(bytes, after_width, has(info, 32));
    let (left_delta, after_left) = delta_at(bytes, after_height, has_left(id));
    let (right_delta, after_right) = delta_at(bytes, after_left, has_right(id));
    let (x, after_x) = place_at(bytes, after_right, has(info, 16));
    let (y, after_y) = place_at(bytes, after_x, has(info, 8));
    let (repetition, after_repetition) = repetition_at(bytes, after_y, has(info, 4));
    let record = PackRecord {
        layer,
        datatype,
        width,
        height,
        left_delta,
        right_delta,
        x,
        y,
        repetition,
    };
    let is_right = opens_as(&record, id, info);
    (record, end_where(bytes, is_right, after_repetition))
}
