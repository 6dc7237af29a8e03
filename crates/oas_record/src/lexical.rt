//! Bytes, numbers, strings and reals of a record.

ghost use Rattle.std.specs.Prelude.{◌≡◌, ◌+◌, ◌<◌, ◌≤◌, ◌^◌, length, slice_index, IfOk, IfErr};
ghost use Rattle.oas_lex.specs.Numbers.{HasUnsigned, HasSigned};
ghost use Rattle.oas_lex.specs.Reals.{HasReal};
ghost use Rattle.oas_lex.specs.Strings.{HasBytes, HasText};
ghost use Rattle.oas_record.specs.Faults.{NoNumber, NoBytes, NoText, NoReal};

use crate::faults::RecordBad;
use oas_lex::{Real, end_of_bytes, real, signed, text, unsigned};

// The byte at `at`.
#[inline(always)]
pub(crate) fn byte_at(bytes: &[u8], at: usize) -> Result<u8, RecordBad>
    requires { at ≤ length bytes.now }
    ensures ok { IfOk result (λ byte. byte ≡ slice_index bytes.now at) }
    ensures there { IfOk result (λ byte. at < length bytes.now) }
    ensures bad { IfErr result (λ bad. NoBytes bytes.now at 1 bad) }
{
    match bytes.get(at) {
        Some(byte) => Ok(*byte),
        None => Err(RecordBad::Short),
    }
}

// The unsigned number at `at`, and the offset after it.
#[inline(always)]
pub(crate) fn number_at(bytes: &[u8], at: usize) -> Result<(u64, usize), RecordBad>
    requires { at ≤ length bytes.now }
    ensures ok { IfOk result (λ r. HasUnsigned bytes.now at r.0 r.1) }
    ensures bad { IfErr result (λ bad. NoNumber bytes.now at bad) }
    ensures narrow { IfOk result (λ r. r.0 < 2 ^ 63) }
    ensures within { IfOk result (λ r. r.1 ≤ length bytes.now) }
{
    Ok(unsigned(bytes, at)?)
}

// The signed number at `at`, and the offset after it.
#[inline(always)]
pub(crate) fn signed_at(bytes: &[u8], at: usize) -> Result<(i64, usize), RecordBad>
    requires { at ≤ length bytes.now }
    ensures ok { IfOk result (λ r. HasSigned bytes.now at r.0 r.1) }
    ensures bad { IfErr result (λ bad. NoNumber bytes.now at bad) }
    ensures within { IfOk result (λ r. r.1 ≤ length bytes.now) }
{
    Ok(signed(bytes, at)?)
}

// Where the bytes of the string at `at` start and end.
pub(crate) fn text_at(bytes: &[u8], at: usize) -> Result<(usize, usize), RecordBad>
    requires { at ≤ length bytes.now }
    ensures ok { IfOk result (λ r. HasText bytes.now at r.0 r.1) }
    ensures bad { IfErr result (λ bad. NoText bytes.now at bad) }
    ensures within { IfOk result (λ r. r.1 ≤ length bytes.now) }
{
    Ok(text(bytes, at)?)
}

// The real at `at`, and the offset after it.
pub(crate) fn real_at(bytes: &[u8], at: usize) -> Result<(Real, usize), RecordBad>
    requires { at ≤ length bytes.now }
    ensures ok { IfOk result (λ r. HasReal bytes.now at r.0 r.1) }
    ensures bad { IfErr result (λ bad. NoReal bytes.now at bad) }
    ensures within { IfOk result (λ r. r.1 ≤ length bytes.now) }
{
    Ok(real(bytes, at)?)
}

// The offset after four bytes from `at` on.
pub(crate) fn four_bytes_at(bytes: &[u8], at: usize) -> Result<usize, RecordBad>
    requires { at ≤ length bytes.now }
    ensures ok { IfOk result (λ next. HasBytes bytes.now at 4 next) }
    ensures bad { IfErr result (λ bad. NoBytes bytes.now at 4 bad) }
    ensures within { IfOk result (λ next. next ≤ length bytes.now) }
{
    Ok(end_of_bytes(bytes, at, 4)?)
}
