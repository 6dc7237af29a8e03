//! The fields of one record, each in its one spelling.
ghost use Rattle.std.specs.Prelude.{◌≡◌, ◌≢◌, ◌+◌, ◌^◌, ◌<◌, ◌≤◌, ◌++◌, ◌↔◌, ℕ, ℤ, pos, List, length, drop, get_or, nat_eq, ◌||◌, unsigned_abs, IsTrue};
ghost use Rattle.oas_lex.specs.Numbers.{signed_value};
ghost use Rattle.oas_lex.specs.Spelling.{unsigned_text, signed_text};
ghost use Rattle.oas_lex.specs.ShotText.{AreNarrow, delta_text, text_of};
ghost use Rattle.shot_reader.specs.Spelled.{IsShort};

use oas_lex::{INFO, ShotFields, TRAPEZOID, TRAPEZOID_A, TRAPEZOID_B, id_for, unsigned};

/// Whether the text is among the bytes at `at`.
pub(crate) fn stands_at(bytes: &[u8], at: usize, text: &[u8]) -> bool
    requires { at ≤ length bytes.now }
    ensures stands { IsTrue result → drop at bytes.now ≡ text.now ++ drop (at + length text.now) bytes.now }
    ensures within { IsTrue result → at + length text.now ≤ length bytes.now }
    ensures all { (after : List ℕ) → drop at bytes.now ≡ text.now ++ after → IsTrue result }
{
    bytes[at..].starts_with(text)
}

/// An offset past the end, where no number ends.
pub fn past_end(bytes: &[u8]) -> usize
    ensures { result ≡ length bytes.now + 1 }
{
    bytes.len() + 1
}

// Whether the number between the offsets has no group of zeros at its end.
#[inline(always)]
fn is_short(bytes: &[u8], at: usize, next: usize) -> bool
    requires some { at < next }
    requires within { next ≤ length bytes.now }
    ensures { IsTrue result ↔ IsShort bytes.now at next }
{
    if next == at + 1 {
        return true;
    }
    bytes[next - 1] != 0
}

/// The unsigned number at `at` in its shortest spelling, and the offset after it. Where none is there it is 0, and the
/// offset is past the end.
#[inline(always)]
pub fn unsigned_at(bytes: &[u8], at: usize) -> (u64, usize)
    ensures narrow { result.0 < 2 ^ 63 }
    ensures spelled { result.1 ≤ length bytes.now → (at < result.1) × (drop at bytes.now ≡ unsigned_text result.0 ++ drop result.1 bytes.now) }
    ensures read { (n : ℕ) (after : List ℕ) → n < 2 ^ 63 → at ≤ length bytes.now → drop at bytes.now ≡ unsigned_text n ++ after
        → (result.0 ≡ n) × (drop result.1 bytes.now ≡ after) × (result.1 ≤ length bytes.now) }
{
    if bytes.len() < at {
        return (0, at);
    }
    match unsigned(bytes, at) {
        Ok((value, next)) => {
            if is_short(bytes, at, next) {
                (value, next)
            } else {
                (0, past_end(bytes))
            }
        }
        Err(_bad) => (0, past_end(bytes)),
    }
}

// The number whose sign is in bit 0 and whose magnitude is above.
#[inline(always)]
fn value_of_code(code: u64) -> i64
    requires { code < 2 ^ 63 }
    ensures { result ≡ signed_value code }
{
    let magnitude = (code / 2) as i64;
    if code % 2 == 0 { magnitude } else { -magnitude }
}

/// The signed number at `at` in its shortest spelling, and the offset after it. Where none is there it is 0, and the
/// offset is past the end. That of 0 is one byte 0.
#[inline(always)]
pub fn signed_at(bytes: &[u8], at: usize) -> (i64, usize)
    ensures narrow { unsigned_abs result.0 < 2 ^ 62 }
    ensures spelled { result.1 ≤ length bytes.now → (at < result.1) × (drop at bytes.now ≡ signed_text result.0 ++ drop result.1 bytes.now) }
    ensures read { (z : ℤ) (after : List ℕ) → unsigned_abs z < 2 ^ 62 → at ≤ length bytes.now → drop at bytes.now ≡ signed_text z ++ after
        → (result.0 ≡ z) × (drop result.1 bytes.now ≡ after) × (result.1 ≤ length bytes.now) }
{
    let (code, next) = unsigned_at(bytes, at);
    if code == 1 {
        return (0, past_end(bytes));
    }
    (value_of_code(code), next)
}

/// The delta at `at`, where the record has it, and the offset after it.
#[inline(always)]
pub fn delta_at(bytes: &[u8], at: usize, is_there: bool) -> (i64, usize)
    ensures narrow { unsigned_abs result.0 < 2 ^ 62 }
    ensures spelled { result.1 ≤ length bytes.now → (IsTrue is_there ↔ (result.0 ≢ pos 0))
        → (at ≤ result.1) × (drop at bytes.now ≡ delta_text result.0 ++ drop result.1 bytes.now) }
    ensures read { (z : ℤ) (after : List ℕ) → unsigned_abs z < 2 ^ 62 → (IsTrue is_there ↔ (z ≢ pos 0)) → at ≤ length bytes.now
        → drop at bytes.now ≡ delta_text z ++ after
        → (result.0 ≡ z) × (drop result.1 bytes.now ≡ after) × (result.1 ≤ length bytes.now) }
{
    if !is_there {
        return (0, at);
    }
    signed_at(bytes, at)
}

// The byte at `at`.
fn byte_at(bytes: &[u8], at: usize) -> u8
    requires { at < length bytes.now }
    ensures { result ≡ get_or bytes.now at 0 }
{
    bytes[at]
}

// The byte after the one at `at`, or 0 past the end.
fn byte_after(bytes: &[u8], at: usize) -> u8
    requires { at < length bytes.now }
    ensures { result ≡ get_or bytes.now (at + 1) 0 }
{
    match bytes.get(at + 1) {
        Some(byte) => *byte,
        None => 0,
    }
}

/// Whether the record of this id has delta a.
pub fn has_left(id: u8) -> bool
    ensures { result ≡ (nat_eq id 23 || nat_eq id 24) }
{
    id == TRAPEZOID || id == TRAPEZOID_A
}

/// Whether the record of this id has delta b.
pub fn has_right(id: u8) -> bool
    ensures { result ≡ (nat_eq id 23 || nat_eq id 25) }
{
    id == TRAPEZOID || id == TRAPEZOID_B
}

/// The offset, or one past the end where what ends there isn't right.
#[inline(always)]
pub fn end_where(bytes: &[u8], is_right: bool, next: usize) -> usize
    ensures right { result ≤ length bytes.now → IsTrue is_right × (result ≡ next) }
    ensures all { IsTrue is_right → result ≡ next }
{
    if is_right { next } else { past_end(bytes) }
}

/// The fields of the record at `at`, and the offset after it, which is past the end where none is spelled there.
pub(crate) fn fields_at(bytes: &[u8], at: usize) -> (ShotFields, usize)
    requires here { at < length bytes.now }
    ensures narrow { AreNarrow result.0 }
    ensures spelled { result.1 ≤ length bytes.now → (at < result.1) × (drop at bytes.now ≡ text_of result.0 ++ drop result.1 bytes.now) }
    ensures read { (f : ShotFields) (after : List ℕ) → AreNarrow f → drop at bytes.now ≡ text_of f ++ after
        → (result.0 ≡ f) × (result.1 ≤ length bytes.now) }
{
    let id = byte_at(bytes, at);
    let info = byte_after(bytes, at);
    let start = end_where(bytes, info == INFO, at + 2);
    let (layer, after_layer) = unsigned_at(bytes, start);
    let (datatype, after_datatype) = unsigned_at(bytes, after_layer);
    let (width, after_width) = unsigned_at(bytes, after_datatype);
    let (height, after_height) = unsigned_at(bytes, after_width);
    let (left_delta, after_left) = delta_at(bytes, after_height, has_left(id));
    let (right_delta, after_right) = delta_at(bytes, after_left, has_right(id));
    let (x, after_x) = signed_at(bytes, after_right);
    let (y, after_y) = signed_at(bytes, after_x);
    let next = end_where(bytes, id_for(left_delta, right_delta) == id, after_y);
    let fields = ShotFields {
        layer,
        datatype,
        width,
        height,
        left_delta,
        right_delta,
        x,
        y,
    };
    (fields, next)
}
