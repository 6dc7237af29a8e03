//! Fields that are written where their bit of the info byte is set.

ghost use Rattle.std.specs.Prelude.{◌≡◌, ◌⊎◌, ◌+◌, ◌<◌, ◌≤◌, Bool, length, IfOk, IfErr};
ghost use Rattle.oas_record.specs.Records.{number_or, signed_or, real_or, called_or, points_or, rep_or};
ghost use Rattle.oas_record.specs.Rows.{Number, Signed, OneReal, NameBy, PolygonPoints, PathPoints, Repetition, TrapezoidType, HasWhere, HasName, NoWhere, NoName, IsCalled, is_set};

use crate::faults::RecordBad;
use crate::fields::{Called, Deltas};
use crate::lexical::{number_at, real_at, signed_at, text_at};
use crate::lists::points_at;
use crate::repetition::Rep;
use crate::repetition_readers::repetition_at;
use oas_lex::Real;

/// The greatest type of a CTRAPEZOID.
const LAST_TYPE: u64 = 25;

// Whether a bit of the info byte is set.
#[inline(always)]
pub(crate) fn is_set(info: u8, bit: u8) -> bool
    requires { bit < 8 }
    ensures { result ≡ is_set bit info }
{
    (info >> bit) % 2 == 1
}

// The number at `at` where the bit is set, and the offset after it.
#[inline(always)]
pub(crate) fn number_where(
    bytes: &[u8],
    at: usize,
    info: u8,
    bit: u8,
) -> Result<(Option<u64>, usize), RecordBad>
    requires within { at ≤ length bytes.now }
    requires bit { bit < 8 }
    ensures ok { IfOk result (λ r. HasWhere (is_set bit info) Number info bytes.now at (number_or r.0) r.1) }
    ensures bad { IfErr result (λ bad. NoWhere (is_set bit info) Number info bytes.now at bad) }
    ensures within { IfOk result (λ r. r.1 ≤ length bytes.now) }
{
    if !is_set(info, bit) {
        return Ok((None, at));
    }
    let (number, next) = number_at(bytes, at)?;
    Ok((Some(number), next))
}

// The signed number at `at` where it is written, and the offset after it.
#[inline(always)]
pub(crate) fn signed_if(
    bytes: &[u8],
    at: usize,
    is_written: bool,
) -> Result<(Option<i64>, usize), RecordBad>
    requires within { at ≤ length bytes.now }
    ensures ok { IfOk result (λ r. HasWhere is_written Signed 0 bytes.now at (signed_or r.0) r.1) }
    ensures bad { IfErr result (λ bad. NoWhere is_written Signed 0 bytes.now at bad) }
    ensures within { IfOk result (λ r. r.1 ≤ length bytes.now) }
{
    if !is_written {
        return Ok((None, at));
    }
    let (number, next) = signed_at(bytes, at)?;
    Ok((Some(number), next))
}

// The signed number at `at` where the bit is set, and the offset after it.
#[inline(always)]
pub(crate) fn signed_where(
    bytes: &[u8],
    at: usize,
    info: u8,
    bit: u8,
) -> Result<(Option<i64>, usize), RecordBad>
    requires within { at ≤ length bytes.now }
    requires bit { bit < 8 }
    ensures ok { IfOk result (λ r. HasWhere (is_set bit info) Signed info bytes.now at (signed_or r.0) r.1) }
    ensures bad { IfErr result (λ bad. NoWhere (is_set bit info) Signed info bytes.now at bad) }
    ensures within { IfOk result (λ r. r.1 ≤ length bytes.now) }
{
    signed_if(bytes, at, is_set(info, bit))
}

// The real at `at` where the bit is set, and the offset after it.
pub(crate) fn real_where(
    bytes: &[u8],
    at: usize,
    info: u8,
    bit: u8,
) -> Result<(Option<Real>, usize), RecordBad>
    requires within { at ≤ length bytes.now }
    requires bit { bit < 8 }
    ensures ok { IfOk result (λ r. HasWhere (is_set bit info) OneReal info bytes.now at (real_or r.0) r.1) }
    ensures bad { IfErr result (λ bad. NoWhere (is_set bit info) OneReal info bytes.now at bad) }
    ensures within { IfOk result (λ r. r.1 ≤ length bytes.now) }
{
    if !is_set(info, bit) {
        return Ok((None, at));
    }
    let (real, next) = real_at(bytes, at)?;
    Ok((Some(real), next))
}

// The name at `at`: a number, or a string.
fn name_at(bytes: &[u8], at: usize, is_number: bool) -> Result<(Called, usize), RecordBad>
    requires { at ≤ length bytes.now }
    ensures ok { IfOk result (λ r. HasName is_number bytes.now at (IsCalled r.0) r.1) }
    ensures bad { IfErr result (λ bad. NoName is_number bytes.now at bad) }
    ensures within { IfOk result (λ r. r.1 ≤ length bytes.now) }
{
    if is_number {
        let (number, next) = number_at(bytes, at)?;
        return Ok((Called::Number(number), next));
    }
    let (first, next) = text_at(bytes, at)?;
    Ok((Called::Text(first, next), next))
}

// The name at `at` where the bit is set, by number where the number's bit is set, and the offset after it.
pub(crate) fn name_where(
    bytes: &[u8],
    at: usize,
    info: u8,
    bit: u8,
    number_bit: u8,
) -> Result<(Option<Called>, usize), RecordBad>
    requires within { at ≤ length bytes.now }
    requires bit { bit < 8 }
    requires number_bit { number_bit < 8 }
    ensures ok { IfOk result (λ r. HasWhere (is_set bit info) (NameBy number_bit) info bytes.now at (called_or r.0) r.1) }
    ensures bad { IfErr result (λ bad. NoWhere (is_set bit info) (NameBy number_bit) info bytes.now at bad) }
    ensures within { IfOk result (λ r. r.1 ≤ length bytes.now) }
{
    if !is_set(info, bit) {
        return Ok((None, at));
    }
    let (name, next) = name_at(bytes, at, is_set(info, number_bit))?;
    Ok((Some(name), next))
}

// The type of a CTRAPEZOID at `at` where bit 7 is set, and the offset after it.
pub(crate) fn type_where(
    bytes: &[u8],
    at: usize,
    info: u8,
) -> Result<(Option<u64>, usize), RecordBad>
    requires within { at ≤ length bytes.now }
    ensures ok { IfOk result (λ r. HasWhere (is_set 7 info) TrapezoidType info bytes.now at (number_or r.0) r.1) }
    ensures bad { IfErr result (λ bad. NoWhere (is_set 7 info) TrapezoidType info bytes.now at bad) }
    ensures within { IfOk result (λ r. r.1 ≤ length bytes.now) }
{
    if !is_set(info, 7) {
        return Ok((None, at));
    }
    let (kind, next) = number_at(bytes, at)?;
    if kind > LAST_TYPE {
        return Err(RecordBad::Shape);
    }
    Ok((Some(kind), next))
}

// The point list of a polygon at `at` where bit 5 is set, and the offset after it.
pub(crate) fn polygon_where(
    bytes: &[u8],
    at: usize,
    info: u8,
) -> Result<(Option<Deltas<'_>>, usize), RecordBad>
    requires within { at ≤ length bytes.now }
    ensures ok { IfOk result (λ r. HasWhere (is_set 5 info) PolygonPoints info bytes.now at (points_or r.0) r.1) }
    ensures bad { IfErr result (λ bad. NoWhere (is_set 5 info) PolygonPoints info bytes.now at bad) }
    ensures within { IfOk result (λ r. r.1 ≤ length bytes.now) }
{
    if !is_set(info, 5) {
        return Ok((None, at));
    }
    let (points, next) = points_at(bytes, at, true)?;
    Ok((Some(points), next))
}

// The point list of a path at `at` where bit 5 is set, and the offset after it.
pub(crate) fn path_where(
    bytes: &[u8],
    at: usize,
    info: u8,
) -> Result<(Option<Deltas<'_>>, usize), RecordBad>
    requires within { at ≤ length bytes.now }
    ensures ok { IfOk result (λ r. HasWhere (is_set 5 info) PathPoints info bytes.now at (points_or r.0) r.1) }
    ensures bad { IfErr result (λ bad. NoWhere (is_set 5 info) PathPoints info bytes.now at bad) }
    ensures within { IfOk result (λ r. r.1 ≤ length bytes.now) }
{
    if !is_set(info, 5) {
        return Ok((None, at));
    }
    let (points, next) = points_at(bytes, at, false)?;
    Ok((Some(points), next))
}

// The repetition at `at` where the bit is set, and the offset after it.
pub(crate) fn repetition_where(
    bytes: &[u8],
    at: usize,
    info: u8,
    bit: u8,
) -> Result<(Option<Rep<'_>>, usize), RecordBad>
    requires within { at ≤ length bytes.now }
    requires bit { bit < 8 }
    ensures ok { IfOk result (λ r. HasWhere (is_set bit info) Repetition info bytes.now at (rep_or r.0) r.1) }
    ensures bad { IfErr result (λ bad. NoWhere (is_set bit info) Repetition info bytes.now at bad) }
    ensures within { IfOk result (λ r. r.1 ≤ length bytes.now) }
{
    if !is_set(info, bit) {
        return Ok((None, at));
    }
    let (repetition, next) = repetition_at(bytes, at)?;
    Ok((Some(repetition), next))
}
