//! Intervals, table offsets and the values of a property.

ghost use Rattle.std.specs.Prelude.{◌≡◌, ◌+◌, ◌<◌, ◌≤◌, Some, length, slice_index, IfOk, IfErr};
ghost use Rattle.oas_record.specs.Values.{bounds, value_form, HasBounds, HasInterval, HasTables, EndsValue, EndsValueOf, EndsValues, NoBounds, NoInterval, NoValue, NoValueOf, NoValues};
ghost use Rattle.oas_record.specs.Lists.{NoNumbers};

use crate::faults::RecordBad;
use crate::fields::Interval;
use crate::lexical::{byte_at, number_at, real_at, signed_at, text_at};
use crate::lists::end_of_numbers;

// The numbers of an interval of this kind, 0 where there is none, and the offset after them.
fn bounds_at(bytes: &[u8], at: usize, kind: u8) -> Result<(u64, u64, usize), RecordBad>
    requires { at ≤ length bytes.now }
    ensures ok { IfOk result (λ r. HasBounds (bounds kind) bytes.now at r.0 r.1 r.2) }
    ensures bad { IfErr result (λ bad. NoBounds (bounds kind) bytes.now at bad) }
    ensures within { IfOk result (λ r. r.2 ≤ length bytes.now) }
{
    match kind {
        0 => Ok((0, 0, at)),
        1..=3 => {
            let (a, next) = number_at(bytes, at)?;
            Ok((a, 0, next))
        }
        4 => {
            let (a, mid) = number_at(bytes, at)?;
            let (b, next) = number_at(bytes, mid)?;
            Ok((a, b, next))
        }
        _ => Err(RecordBad::Shape),
    }
}

// The interval at `at`, and the offset after it.
pub(crate) fn interval_at(bytes: &[u8], at: usize) -> Result<(Interval, usize), RecordBad>
    requires { at ≤ length bytes.now }
    ensures ok { IfOk result (λ r. HasInterval bytes.now at r.0 r.1) }
    ensures bad { IfErr result (λ bad. NoInterval bytes.now at bad) }
    ensures within { IfOk result (λ r. r.1 ≤ length bytes.now) }
{
    let kind = byte_at(bytes, at)?;
    let (a, b, next) = bounds_at(bytes, at + 1, kind)?;
    Ok((Interval { kind, a, b }, next))
}

// The offset after the twelve table offsets from `at` on.
pub(crate) fn end_of_tables(bytes: &[u8], at: usize) -> Result<usize, RecordBad>
    requires { at ≤ length bytes.now }
    ensures ok { IfOk result (λ next. HasTables bytes.now at next) }
    ensures bad { IfErr result (λ bad. NoNumbers 12 bytes.now at bad) }
    ensures within { IfOk result (λ next. next ≤ length bytes.now) }
{
    end_of_numbers(bytes, at, 12)
}

// The offset after a property value of this kind, whose kind stands at `at`.
fn end_of_value_by(bytes: &[u8], at: usize, kind: u8) -> Result<usize, RecordBad>
    requires { at < length bytes.now }
    ensures ok { IfOk result (λ next. EndsValueOf (value_form kind) bytes.now at next) }
    ensures bad { IfErr result (λ bad. NoValueOf (value_form kind) bytes.now at bad) }
    ensures within { IfOk result (λ next. next ≤ length bytes.now) }
{
    match kind {
        0..=7 => {
            let (_real, next) = real_at(bytes, at)?;
            Ok(next)
        }
        9 => {
            let (_number, next) = signed_at(bytes, at + 1)?;
            Ok(next)
        }
        10..=12 => {
            let (_first, next) = text_at(bytes, at + 1)?;
            Ok(next)
        }
        8 | 13..=15 => {
            let (_number, next) = number_at(bytes, at + 1)?;
            Ok(next)
        }
        _ => Err(RecordBad::Kind),
    }
}

// The offset after the property value at `at`.
fn end_of_value(bytes: &[u8], at: usize) -> Result<usize, RecordBad>
    requires { at ≤ length bytes.now }
    ensures ok { IfOk result (λ next. EndsValue bytes.now at next) }
    ensures bad { IfErr result (λ bad. NoValue bytes.now at bad) }
    ensures within { IfOk result (λ next. next ≤ length bytes.now) }
{
    let kind = byte_at(bytes, at)?;
    end_of_value_by(bytes, at, kind)
}

// The offset after so many property values from `at` on.
pub(crate) fn end_of_values(bytes: &[u8], at: usize, count: u64) -> Result<usize, RecordBad>
    requires { at ≤ length bytes.now }
    ensures ok { IfOk result (λ next. EndsValues count bytes.now at next) }
    ensures bad { IfErr result (λ bad. NoValues count bytes.now at bad) }
    ensures within { IfOk result (λ next. next ≤ length bytes.now) }
{
    let mut next = at;
    for _index in 0..count {
        next = end_of_value(bytes, next)?;
    }
    Ok(next)
}
